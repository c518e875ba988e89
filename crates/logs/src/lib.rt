// Following the changer's log (document 02, 9/13): "the store after it, or the first entry that can't be true, counted from 0, with the store before that entry".
#![tactic(auto)]

ghost use Rattle.store.specs.Accept.{Accepted};
ghost use Rattle.store.specs.Sound.{Shaped};
ghost use Rattle.logs.specs.Following.{entries_of, follow_from, follow};
ghost use Rattle.logs.specs.Promises.{TracedIs, FollowedIs};

use entries::{Untrue, first_entry, follow_entry};
use replay::{End, Played};
use store::Store;

// The store reached; the place of the first entry that can't be true, counted from 0, or the count of entries where all can, 0 for a refused store; and how it ended.
#[derive(Clone, Copy)]
pub struct Followed {
    pub store: Store,
    pub entry: usize,
    pub end: End<Untrue>,
}

// The entries of a log, one after the other, followed in a store; those before the first that can't be true are counted.
fn trace_entries(s: &mut Store, log: &[u8]) -> Played<Untrue>
    requires { Shaped s.old }
    ensures { TracedIs (follow_from s.old (entries_of log.now)) s.new result }
{
    let count = log.len() / 3;
    for entry in 0..count {
        let e = first_entry(&log[3 * entry..]);
        if let Err(u) = follow_entry(s, e) {
            return Played {
                count: entry,
                end: End::Stopped(u),
            };
        }
    }
    Played {
        count,
        end: End::RunThrough,
    }
}

// A log followed in an accepted store. One of a wrong length is malformed, at entry 0.
pub fn trace(s: &mut Store, log: &[u8]) -> Played<Untrue>
    requires { Accepted s.old }
    ensures { TracedIs (follow s.old log.now) s.new result }
{
    if log.len() % 3 != 0 {
        return Played {
            count: 0,
            end: End::Stopped(Untrue::Malformed),
        };
    }
    trace_entries(s, log)
}

// A log followed on a store, or the store as it came where it is refused.
pub fn follow(s: Store, log: &[u8]) -> Followed
    ensures { FollowedIs (follow s log.now) result }
{
    if let Err(f) = s.check() {
        return Followed {
            store: s,
            entry: 0,
            end: End::StoreRefused(f),
        };
    }
    let mut store = s;
    let traced = trace(&mut store, log);
    Followed {
        store,
        entry: traced.count,
        end: traced.end,
    }
}
