// The bench file of document 01, judged as a whole before anything runs.
//     event    what stands at an offset: a kind byte, 2 bytes length n, n bytes
#![tactic(auto)]

pub mod event;

ghost use Rattle.std.specs.Prelude.{◌≡◌, length};
ghost use Rattle.benchfile.specs.File.{Judges};
ghost use Rattle.benchfile.specs.Inner.Walk.{Tallies, agrees_with};

use crate::event::event_at;
use fields::le32;

// The most bytes that a good file has.
const LONGEST: usize = 65536;

// How many bytes stand after the events: event count, offset of the last event, `BOT1`.
pub const TRAILER: usize = 12;

// What a walk over events found: how many there are, and the offset of the last one.
#[derive(Clone, Copy)]
struct Tally {
    count: usize,
    last: usize,
}

// Goes from event to event, up to the end of `events`; there is no tally where something else stands on the way. The steps are as long as
// the events. An iterator of its own would have to give the offset, and whether it ended well, so it is no plainer.
#[tactic(auto, using(crate::proofs::Walked::walks))]
fn walk(events: &[u8]) -> Option<Tally>
    ensures { Tallies result events.now }
{
    let mut at: usize = 0;
    let mut tally = Tally { count: 0, last: 0 };
    while at < events.len() {
        let e = event_at(events, at)?;
        tally = Tally {
            count: tally.count + 1,
            last: at,
        };
        at += 3 + e.length;
    }
    Some(tally)
}

// Whether `trailer` has the event count and the offset of the last event, as in `t`, and `BOT1`.
#[tactic(auto, using(std::proofs::lemmas::Bool::Decides::nat_tests), unfolding(crate::specs::Inner::Walk::agrees_with))]
fn closes(t: Tally, trailer: &[u8]) -> bool
    requires { length trailer.now ≡ 12 }
    ensures { result ≡ agrees_with t trailer.now }
{
    le32(trailer, 0) as usize == t.count
        && le32(trailer, 4) as usize == t.last
        && trailer.ends_with(b"BOT1")
}

// Whether `file` is a good bench file.
#[tactic(auto, using(crate::proofs::Judged::judges))]
pub fn good(file: &[u8]) -> bool
    ensures { Judges result file.now }
{
    if LONGEST < file.len() || file.len() < TRAILER {
        return false;
    }
    let (events, trailer) = file.split_at(file.len() - TRAILER);
    match walk(events) {
        Some(t) => closes(t, trailer),
        None => false,
    }
}
