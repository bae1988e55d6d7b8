//! Values of both levels, and their texts.

use np_syntax::{Boxed, List, Memory, Name, Text, Value, print_value};
use std::alloc::Global;
use std::test::Fail;

const HERE: Name = Name { site: 1, n: 3 };

fn text(alloc: Global, bytes: &str) -> Result<Text, Memory> {
    List::from_slice(alloc, bytes.as_bytes())
}

fn add_values(alloc: Global, parts: &mut List<Value>) -> Result<(), Memory> {
    parts.add(Value::Int(-5))?;
    parts.add(Value::Truth(true))?;
    parts.add(Value::Str(text(alloc, "a\n")?))?;
    parts.add(Value::Site(1))?;
    parts.add(Value::Agent(HERE))?;
    parts.add(Value::Chan(HERE))
}

fn add_low_values(alloc: Global, parts: &mut List<Value>) -> Result<(), Memory> {
    parts.add(Value::Letter(HERE, Boxed::of(alloc, Value::Int(7))?))?;
    let places = List::from_slice(alloc, [(HERE, HERE)].as_slice())?;
    parts.add(Value::Places(places))
}

/// A value of each form, in a tuple.
fn all_values(alloc: Global) -> Result<Value, Memory> {
    let mut parts = List::new(alloc);
    add_values(alloc, &mut parts)?;
    add_low_values(alloc, &mut parts)?;
    Ok(Value::Tuple(parts))
}

/// A value's text, where sites have these names.
fn printed(alloc: Global, value: &Value, names: [&str; 2]) -> Result<Text, Memory> {
    let mut sites = List::new(alloc);
    let added = add_sites(alloc, &mut sites, names);
    let printed = print_value(alloc, value, &sites);
    drop(sites);
    added?;
    printed
}

fn add_sites(alloc: Global, sites: &mut List<Text>, names: [&str; 2]) -> Result<(), Memory> {
    sites.add(text(alloc, names[0])?)?;
    sites.add(text(alloc, names[1])?)
}

#[test]
fn copies_values(rt: HostRuntime) -> Result<(), Fail> {
    let alloc = rt.alloc();
    let value = all_values(alloc)?;
    let is_same = is_copied(alloc, &value);
    let is_other = value.same(&Value::Int(-5));
    drop(value);
    assert_eq!(rt; (is_same, is_other), (Ok(true), false));
    Ok(())
}

/// Whether a copy of a value is the same.
fn is_copied(alloc: Global, value: &Value) -> Result<bool, Memory> {
    let copied = value.copy(alloc)?;
    let is_same = copied.same(value);
    drop(copied);
    Ok(is_same)
}

/// A value that no program prints has no text.
#[test]
fn prints_values(rt: HostRuntime) -> Result<(), Fail> {
    let alloc = rt.alloc();
    let value = all_values(alloc)?;
    let text = printed(alloc, &value, ["home", "far"]);
    drop(value);
    let text = text?;
    assert_eq!(rt; text.as_slice(), b"[-5 true \"a\\n\" far    ]".as_slice());
    let least = printed(alloc, &Value::Int(-9223372036854775808), ["home", "far"])?;
    assert_eq!(rt; least.as_slice(), b"-9223372036854775808".as_slice());
    Ok(())
}
