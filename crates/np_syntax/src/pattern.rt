ghost use Rattle.std.specs.Prelude.{◌≡◌, IfOk};

use super::list::List;
use super::memory::Memory;
use std::alloc::Global;

/// A pattern with its offset in the source, in bytes.
#[cycle(pat)]
pub struct Pat {
    pub at: u32,
    pub form: PatForm,
}

impl Drop for Pat {
    #[cycle(drop_pat)]
    fn drop(self) {
        let Pat { at: _, form: _ } = self;
    }
}

/// The forms of a pattern: `_`, a binder by its number, and a tuple.
#[cycle(pat)]
pub enum PatForm {
    Any,
    Bind(u32),
    Tuple(List<Pat>),
}

impl Drop for PatForm {
    #[cycle(drop_pat)]
    fn drop(self) {
        match self {
            PatForm::Any | PatForm::Bind(_) | PatForm::Tuple(_) => {}
        }
    }
}

impl Pat {
    #[cycle(pat_copy)]
    pub fn copy(&self, alloc: Global) -> Result<Pat, Memory>
        ensures { IfOk result (λ copied. copied ≡ self.now) }
    {
        let form = self.form.copy(alloc)?;
        Ok(Pat { at: self.at, form })
    }
}

impl PatForm {
    #[cycle(pat_copy)]
    pub fn copy(&self, alloc: Global) -> Result<PatForm, Memory>
        ensures { IfOk result (λ copied. copied ≡ self.now) }
    {
        match self {
            PatForm::Any => Ok(PatForm::Any),
            PatForm::Bind(binder) => Ok(PatForm::Bind(*binder)),
            PatForm::Tuple(parts) => Ok(PatForm::Tuple(copy_pats(alloc, parts.as_slice())?)),
        }
    }
}

#[cycle(pat_copy)]
fn copy_pats(alloc: Global, pats: &[Pat]) -> Result<List<Pat>, Memory>
    ensures { IfOk result (λ copied. copied ≡ pats.now) }
{
    let mut copies = List::new(alloc);
    for pat in pats {
        copies.add(pat.copy(alloc)?)?;
    }
    Ok(copies)
}
