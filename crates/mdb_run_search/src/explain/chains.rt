//! Chains of marks that share their older parts.

ghost use Rattle.std.specs.Prelude.{◌≡◌, [], ◌∷◌, ◌++◌, ℕ, List, IfOk};
ghost use Rattle.mdb_run_search.specs.Marks.{marks_at};
ghost use Rattle.mdb_run_search.specs.declared.mark.Mark.{Mark};
ghost use Rattle.mdb_run_search.specs.inner.Chains.{Denotes, GoBack, IsChain, KeepChains};

use crate::Mark;
use mdb_machine::Choice;
use std::alloc::{AllocError, Global};

/// A mark with its row, and the chain that it goes on from.
#[derive(Clone, Copy)]
pub(crate) struct Link {
    row: u64,
    mark: Mark,
    parent: Chain,
}

/// A list of marks in `Chains`: 0 is no mark, and n + 1 ends with link n.
#[derive(Clone, Copy)]
pub(crate) struct Chain {
    at: usize,
}

impl Chain {
    /// No mark.
    pub(crate) const EMPTY: Chain = Chain { at: 0 };
}

/// The links of all chains.
#[derive(Drop)]
pub(crate) struct Chains {
    links: Vec<Link>,
    ghost back: { GoBack links.items },
}

impl Chains {
    /// No link.
    pub(crate) fn new(alloc: Global) -> Chains
        ensures { result.links.items ≡ [] }
    {
        Chains {
            links: Vec::new(alloc),
        }
    }

    /// A chain with one mark more, at a row. Every other chain stays what it was.
    ///
    /// # Errors
    ///
    /// Memory was refused.
    pub(crate) fn push(&mut self, chain: Chain, row: u64, mark: Mark) -> Result<Chain, AllocError>
        requires { IsChain self.old.links.items chain }
        ensures grown { IfOk result (λ next. (marks : List (ℕ × Mark))
            → Denotes self.old.links.items chain marks
            → Denotes self.new.links.items next (marks ++ (row, mark) ∷ [])) }
        ensures kept { KeepChains self.old.links.items self.new.links.items }
    {
        let at = self.links.len() + 1;
        self.links.push(Link {
            row,
            mark,
            parent: chain,
        })?;
        Ok(Chain { at })
    }

    /// A chain with the mark of a choice more, where that has one. Every other chain stays what it
    /// was.
    ///
    /// # Errors
    ///
    /// Memory was refused.
    pub(crate) fn extend(
        &mut self,
        chain: Chain,
        row: u64,
        choice: Choice,
    ) -> Result<Chain, AllocError>
        requires { IsChain self.old.links.items chain }
        ensures grown { IfOk result (λ next. (marks : List (ℕ × Mark))
            → Denotes self.old.links.items chain marks
            → Denotes self.new.links.items next (marks ++ marks_at row choice)) }
        ensures kept { KeepChains self.old.links.items self.new.links.items }
    {
        match choice {
            Choice::Plain => Ok(chain),
            Choice::Lost => self.push(chain, row, Mark::Lost),
            Choice::Restart => self.push(chain, row, Mark::Restart),
            Choice::Again => self.push(chain, row, Mark::Again),
        }
    }

    /// The marks of a chain with their rows, the oldest first.
    ///
    /// # Errors
    ///
    /// Memory was refused.
    pub(crate) fn read(&self, alloc: Global, chain: Chain) -> Result<Vec<(u64, Mark)>, AllocError>
        requires { IsChain self.now.links.items chain }
        ensures { IfOk result (λ marks. Denotes self.now.links.items chain marks.items) }
    {
        let mut marks = Vec::new(alloc);
        let mut at = chain.at;
        while at > 0 {
            let link = self.links[at - 1];
            marks.push((link.row, link.mark))?;
            at = link.parent.at;
        }
        marks.reverse();
        Ok(marks)
    }
}
