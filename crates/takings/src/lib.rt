// Every list of calls on a cursor.
#![tactic(auto)]

ghost use Rattle.std.specs.Prelude.{◌≡◌, IfOk};
ghost use Rattle.takings.specs.Takings.{call_of, Answered, Logged};

use plumbing::cursor::BackCursor;
use std::alloc::AllocError;

// A call on a cursor.
#[derive(Clone, Copy, PartialEq, Eq, Debug)]
pub enum Call {
    Next,
    NextBack,
    Len,
}

// What a call answered.
#[derive(Clone, Copy, PartialEq, Eq, Debug)]
pub enum Answer<T> {
    First(Option<T>),
    Last(Option<T>),
    Count(usize),
}

// Makes one call. The calls are values and no closures, so that a contract speaks of every list of them.
fn run_call<K: BackCursor>(cursor: K, call: Call) -> (K, Answer<K::Item>)
    ensures kind { call_of result.1 ≡ call }
    ensures answered { Answered (K.remaining cursor) result.1 (K.remaining result.0) }
{
    match call {
        Call::Next => {
            let (rest, taken) = cursor.next();
            (rest, Answer::First(taken))
        }
        Call::NextBack => {
            let (rest, taken) = cursor.next_back();
            (rest, Answer::Last(taken))
        }
        Call::Len => {
            let count = cursor.len();
            (cursor, Answer::Count(count))
        }
    }
}

// Makes the calls in their order, each on what the one before it left, and appends the answer of each
// to the log. It fails only for want of memory.
pub fn run_calls<K: BackCursor>(
    mut cursor: K,
    calls: &[Call],
    log: &mut Vec<Answer<K::Item>>,
) -> Result<K, AllocError>
    ensures { IfOk result (λ rest. Logged log.old.items log.new.items (K.remaining cursor) calls.now (K.remaining rest)) }
{
    for call in calls {
        let (rest, answer) = run_call(cursor, *call);
        cursor = rest;
        log.push(answer)?;
    }
    Ok(cursor)
}
