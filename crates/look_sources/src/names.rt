//! How a source names the agents and the channels that it makes.

ghost use Rattle.std.specs.Prelude.{◌≡◌, ◌≤◌, drop, length, take, IfOk};
ghost use Rattle.look_sources.specs.Binders.{AreNamed, StandsIn};

use np_syntax::{List, Memory, Proc, ProcForm};
use picture_svg::Binder;
use std::alloc::Global;

fn is_name_byte(byte: u8) -> bool {
    byte.is_ascii_alphanumeric() || byte == b'_' || byte == b'\''
}

/// How many bytes of a name stand in front.
fn name_len(bytes: &[u8]) -> usize
    ensures { result ≤ length bytes.now }
{
    let count = bytes.iter().take_while(|byte| is_name_byte(**byte)).count();
    count.min(bytes.len())
}

/// How many bytes in front are of no name.
fn gap_len(bytes: &[u8]) -> usize
    ensures { result ≤ length bytes.now }
{
    let count = bytes
        .iter()
        .take_while(|byte| !is_name_byte(**byte))
        .count();
    count.min(bytes.len())
}

/// So many bytes in front.
fn front(bytes: &[u8], count: usize) -> &[u8]
    requires { count ≤ length bytes.now }
    ensures { result.now ≡ take count bytes.now }
{
    let (front, _) = bytes.split_at(count);
    front
}

/// The bytes behind so many.
fn behind(bytes: &[u8], count: usize) -> &[u8]
    requires { count ≤ length bytes.now }
    ensures { result.now ≡ drop count bytes.now }
{
    let (_, rest) = bytes.split_at(count);
    rest
}

/// The second word from this offset on.
fn second_word(bytes: &[u8], at: u32) -> &[u8]
    ensures { StandsIn bytes.now result.now }
{
    let from = behind(bytes, (at as usize).min(bytes.len()));
    let gap = behind(from, name_len(from));
    let word = behind(gap, gap_len(gap));
    front(word, name_len(word))
}

/// Notes the name that stands behind the first word of a process, `agent` or `new`.
fn add_binder(
    alloc: Global,
    binders: &mut List<Binder>,
    bytes: &[u8],
    p: &Proc,
) -> Result<(), Memory>
    requires { AreNamed bytes.now binders.old }
    ensures { AreNamed bytes.now binders.new }
{
    let name = List::from_slice(alloc, second_word(bytes, p.at))?;
    binders.add(Binder {
        node: p.tag.node,
        name,
    })
}

/// Notes how a process names what it makes.
fn add_binders(
    alloc: Global,
    binders: &mut List<Binder>,
    bytes: &[u8],
    p: &Proc,
) -> Result<(), Memory>
    requires { AreNamed bytes.now binders.old }
    ensures { AreNamed bytes.now binders.new }
{
    match p.form.get() {
        ProcForm::Agent(_, body, rest) => {
            add_binder(alloc, binders, bytes, p)?;
            add_binders(alloc, binders, bytes, body)?;
            add_binders(alloc, binders, bytes, rest)
        }
        ProcForm::Par(first, second)
        | ProcForm::If(_, first, second)
        | ProcForm::IfLocal(_, _, _, first, second)
        | ProcForm::Lookup(_, _, _, first, second) => {
            add_binders(alloc, binders, bytes, first)?;
            add_binders(alloc, binders, bytes, second)
        }
        ProcForm::New(_, _, body) => {
            add_binder(alloc, binders, bytes, p)?;
            add_binders(alloc, binders, bytes, body)
        }
        ProcForm::Inp(_, _, body)
        | ProcForm::Rep(_, _, body)
        | ProcForm::Migrate(_, body)
        | ProcForm::Let(_, _, body) => add_binders(alloc, binders, bytes, body),
        ProcForm::Stop
        | ProcForm::Out(_, _)
        | ProcForm::Send(_, _, _, _)
        | ProcForm::Post(_, _, _)
        | ProcForm::Print(_)
        | ProcForm::Open(_) => Ok(()),
    }
}

/// How the source of these bytes names the agents and the channels that its process makes.
pub fn binders_of(alloc: Global, bytes: &[u8], main: &Proc) -> Result<List<Binder>, Memory>
    ensures { IfOk result (AreNamed bytes.now) }
{
    let mut binders = List::new(alloc);
    add_binders(alloc, &mut binders, bytes, main)?;
    Ok(binders)
}
