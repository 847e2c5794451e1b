//! Calls as text: the lines that ask for them, apart by `; `.

use fi_run::Primitive;
use fi_scripts::{Labels, Scripted};
use std::alloc::Global;

/// A plain state with the labels of its futures, by which lines are read.
#[derive(Drop)]
pub struct Reader<P: Scripted> {
    alloc: Global,
    state: P,
    labels: Labels,
}

impl<P: Scripted> Reader<P>
where
    P::Call: Copy,
{
    /// None if memory is missing.
    pub fn open(alloc: Global, opening: P::Opening) -> Option<Self> {
        Some(Reader {
            alloc,
            state: P::open(alloc, opening).ok()?,
            labels: Labels::new(alloc, 1).ok()?,
        })
    }

    /// The call of this line, which the state makes: a future that it makes has its label from then on. None if it is a bad line, or memory
    /// is missing.
    pub fn call(&mut self, line: &str) -> Option<P::Call> {
        let (_, request) = self.labels.read::<P>(line.as_bytes())?;
        let request = request?;
        let answer = self.state.apply(request.call);
        self.labels.keep(request.row, request.label, &answer).ok()?;
        Some(request.call)
    }

    /// The calls of these lines, which the state makes.
    pub fn calls(&mut self, lines: &str) -> Option<Vec<P::Call>> {
        let mut calls = Vec::new(self.alloc);
        for line in lines.split("; ") {
            calls.push(self.call(line)?).ok()?;
        }
        Some(calls)
    }

    /// The calls of these lines, which nobody makes.
    pub fn choices(&self, lines: &str) -> Option<Vec<P::Call>> {
        let mut calls = Vec::new(self.alloc);
        for line in lines.split("; ") {
            let (_, request) = self.labels.read::<P>(line.as_bytes())?;
            calls.push(request?.call).ok()?;
        }
        Some(calls)
    }
}
