// The number of document 01 for each answer on two stores, 0 where nothing is refused. The definitions are in specs/Numbers.antt of the crate of each answer.
#![tactic(auto)]

ghost use Rattle.std.specs.Prelude.{◌≡◌};
ghost use Rattle.pairs.specs.Numbers.{pair_fault_number, pair_number};
ghost use Rattle.reachable.specs.Numbers.{reach_number};
ghost use Rattle.plans.specs.Numbers.{plan_fault_number, plan_number};

use numbers::Numbered;
use pairs::PairFault;
use plans::PlanFault;

pub fn pair_fault_number(f: PairFault) -> u8
    ensures { result ≡ pair_fault_number f }
{
    match f {
        PairFault::StartRefused(g) => g.number(),
        PairFault::GoalRefused(g) => g.number(),
        PairFault::Frames => 8,
        PairFault::Cassettes => 9,
    }
}

pub fn pair_number(p: Result<usize, PairFault>) -> u8
    ensures { result ≡ pair_number p }
{
    p.err().map_or(0, pair_fault_number)
}

pub fn reach_number(r: Result<bool, PairFault>) -> u8
    ensures { result ≡ reach_number r }
{
    match r {
        Ok(true) => 0,
        Ok(false) => 15,
        Err(f) => pair_fault_number(f),
    }
}

pub fn plan_fault_number(f: PlanFault) -> u8
    ensures { result ≡ plan_fault_number f }
{
    match f {
        PlanFault::Refused(g) => pair_fault_number(g),
        PlanFault::Unreachable => 15,
        PlanFault::LittleSpace => 10,
    }
}

pub fn plan_number(a: Result<usize, PlanFault>) -> u8
    ensures { result ≡ plan_number a }
{
    a.err().map_or(0, plan_fault_number)
}
