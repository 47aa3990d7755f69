//! Threads, with the innermost context apart.

ghost use Rattle.std.specs.Prelude.{◌≡◌, [], ◌∷◌, drop, MatchOption, Some, None, OnOk, OnErr};
ghost use Rattle.sm_state.specs.Entering.{begun_thread};
ghost use Rattle.sm_step.specs.Machine.{thread_of};

use sl_base::NoMemory;
use sm_state::{Context, Stack, Value};
use std::alloc::Global;

/// A thread whose innermost context stands apart from those below it, so that it is changed while another is entered.
#[derive(Drop)]
pub struct Lane<'p> {
    pub inner: Option<Context<'p>>,
    pub below: Stack<Context<'p>>,
    pub value: Option<Value>,
    pub thrown: Option<Value>,
}

// Puts a context on top, or hands it back.
fn keep_below<'p>(below: &mut Stack<Context<'p>>, c: Context<'p>) -> Option<Context<'p>>
    ensures { MatchOption result (below.new ≡ c.entry ∷ below.old) (λ refused. (refused ≡ c.entry) × (below.new ≡ below.old)) }
{
    match below.push(c) {
        Ok(()) => None,
        Err(refused) => Some(refused.value),
    }
}

// Takes all off.
fn clear(below: &mut Stack<Context<'_>>)
    ensures { below.new ≡ [] }
{
    below.take_off(below.len());
}

impl<'p> Lane<'p> {
    /// A thread with this context, or one that has ended.
    pub fn begun(alloc: Global, context: Option<Context<'p>>) -> Lane<'p>
        ensures { thread_of result ≡ begun_thread context.entry }
    {
        Lane {
            inner: context,
            below: Stack::new(alloc),
            value: None,
            thrown: None,
        }
    }

    /// A value is handed up.
    pub fn give(&mut self, value: Value)
        ensures { thread_of self.new ≡ record { contexts = (thread_of self.old).contexts; value = Some value; thrown = None } }
    {
        self.value = Some(value);
        self.thrown = None;
    }

    /// An exception is handed up.
    pub fn raise(&mut self, thrown: Value)
        ensures { thread_of self.new ≡ record { contexts = (thread_of self.old).contexts; value = None; thrown = Some thrown } }
    {
        self.value = None;
        self.thrown = Some(thrown);
    }

    /// The innermost context is left, if there is one.
    pub fn leave(&mut self)
        ensures { thread_of self.new ≡ record { contexts = drop 1 (thread_of self.old).contexts; value = self.old.value; thrown = self.old.thrown } }
    {
        if self.inner.is_some() {
            self.inner = self.below.pop();
        }
    }

    /// A part is entered. Without memory nothing changes.
    pub fn enter(&mut self, context: Context<'p>) -> Result<(), NoMemory>
        ensures ok { OnOk result (thread_of self.new ≡ record { contexts = context.entry ∷ (thread_of self.old).contexts; value = None; thrown = None }) }
        ensures err { OnErr result (self.new ≡ self.old) }
    {
        match self.inner.take() {
            None => clear(&mut self.below),
            Some(c) => {
                if let Some(refused) = keep_below(&mut self.below, c) {
                    self.inner = Some(refused);
                    return Err(NoMemory);
                }
            }
        }
        self.inner = Some(context);
        self.value = None;
        self.thrown = None;
        Ok(())
    }
}
