//! Names in the order in which they came.

ghost use Rattle.std.specs.Prelude.{◌≡◌, [], ◌∷◌, ◌++◌, OnOk, OnErr, IfOk, length, take};
ghost use Rattle.line_words.specs.Table.{all_but};
ghost use Rattle.client_view.specs.Names.{names_after, names_back};

use line_words::{NameBuf, NameList};
use noted_map::{Edit, Undo};
use std::alloc::{AllocError, Global};
use std::marker::Model;

/// Names in the order in which they came. A server may send one twice.
#[derive(Drop)]
pub(crate) struct Names {
    names: Vec<NameBuf>,
}

impl Model for Names {
    ghost use Rattle.std.specs.Prelude.{List, ℕ};

    ghost Value = { List (List ℕ) };

    ghost view = { λ n. n.names.items };
}

impl Names {
    /// No names. It takes no memory yet.
    pub(crate) fn new(alloc: Global) -> Names
        ensures { result ≡ [] }
    {
        Names {
            names: Vec::new(alloc),
        }
    }

    /// One alone.
    pub(crate) fn one(alloc: Global, name: NameBuf) -> Result<Names, AllocError>
        ensures { IfOk result (λ names. names ≡ name ∷ []) }
    {
        let mut names = Vec::new(alloc);
        names.push(name)?;
        Ok(Names { names })
    }

    /// The names.
    pub(crate) fn as_slice(&self) -> &[NameBuf]
        ensures { result.now ≡ self.now }
    {
        self.names.as_slice()
    }

    /// How many there are.
    fn len(&self) -> usize
        ensures { result ≡ length self.now }
    {
        self.names.len()
    }

    /// The same names once more.
    fn copy_of(alloc: Global, names: &[NameBuf]) -> Result<Names, AllocError>
        ensures { IfOk result (λ copied. copied ≡ names.now) }
    {
        let mut copied = Vec::new(alloc);
        copied.reserve(names.len())?;
        for name in names {
            copied.push(name.copy())?;
        }
        Ok(Names { names: copied })
    }

    /// One more. Where memory is refused, nothing changes.
    fn push(&mut self, name: NameBuf) -> Result<(), AllocError>
        ensures ok { OnOk result (self.new ≡ self.old ++ name ∷ []) }
        ensures err { OnErr result (self.new ≡ self.old) }
    {
        self.names.push(name)?;
        Ok(())
    }

    /// More of them. Where memory is refused, nothing changes.
    fn append(&mut self, more: NameList) -> Result<(), AllocError>
        ensures ok { OnOk result (self.new ≡ self.old ++ more) }
        ensures err { OnErr result (self.new ≡ self.old) }
    {
        self.names.append(&mut more.into_vec())?;
        Ok(())
    }

    /// Without one.
    fn remove(&mut self, name: &NameBuf)
        ensures { self.new ≡ all_but name.now self.old }
    {
        self.names.retain(|other| !name.cmp(other).is_eq());
    }

    /// The first of them alone.
    fn truncate(&mut self, count: usize)
        ensures { self.new ≡ take count self.old }
    {
        self.names.truncate(count);
    }
}

/// A change of a list of names.
#[derive(Drop)]
pub(crate) enum NamesChange<'a> {
    /// One more, behind the others.
    Add(NameBuf),
    /// More of them, behind the others.
    AddAll(NameList),
    /// Without one; where that is noted, the list is copied.
    Remove { name: &'a NameBuf, alloc: Global },
}

/// What a list of names was before a change.
#[derive(Drop)]
pub(crate) enum NamesWere {
    /// The first of them alone.
    First(usize),
    /// These.
    All(Names),
}

impl<'a> Edit<Names, NamesWere> for NamesChange<'a> {
    ghost after = { names_after };

    fn make(self, names: &mut Names) -> Result<(), AllocError> {
        match self {
            NamesChange::Add(name) => names.push(name),
            NamesChange::AddAll(more) => names.append(more),
            NamesChange::Remove { name, .. } => {
                names.remove(name);
                Ok(())
            }
        }
    }

    #[tactic(auto, using(crate::proofs::FirstNames::take_first))]
    fn make_noted(self, names: &mut Names) -> Result<NamesWere, AllocError> {
        match self {
            NamesChange::Add(name) => {
                let count = names.len();
                names.push(name)?;
                Ok(NamesWere::First(count))
            }
            NamesChange::AddAll(more) => {
                let count = names.len();
                names.append(more)?;
                Ok(NamesWere::First(count))
            }
            NamesChange::Remove { name, alloc } => {
                let known = Names::copy_of(alloc, names.as_slice())?;
                names.remove(name);
                Ok(NamesWere::All(known))
            }
        }
    }
}

impl Undo<Names> for NamesWere {
    ghost back = { names_back };

    fn undo(self, names: &mut Names) {
        match self {
            NamesWere::First(count) => names.truncate(count),
            NamesWere::All(known) => *names = known,
        }
    }
}
