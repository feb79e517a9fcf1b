// The calls of a bench as values, and a list of them carried out in order.
ghost use Rattle.std.specs.Prelude.{◌≡◌};
ghost use Rattle.train.specs.Refusals.{refusal, refusal_of};
ghost use Rattle.train.specs.declared.refusal.Part.TheVariants.{Bench as OfBench};
ghost use Rattle.bench.specs.Calls.{said, run};
ghost use Rattle.bench.specs.Facts.{nothing, checks as checks_of, after, after_all};
ghost use Rattle.bench.specs.Shown.{shown};
ghost use Rattle.bench.specs.Standing.{Shows, AcceptedAsTold, StandingLaws};

use crate::state::Bench;
use train::entries::Coupled;
use train::identity::Identity;
use train::name::Name;
use train::refusal::Refusal;

/// One call with its arguments.
#[derive(Clone, Copy)]
pub enum Call<'a> {
    Inaugurate {
        etb: u32,
        formation: &'a [Coupled],
    },
    Claim {
        identity: Identity,
        vehicle: u8,
        direction: u8,
    },
    Yield {
        identity: Identity,
    },
    Confirm {
        names: &'a [Name],
    },
    Withdraw,
}

/// Carries out one call, or refuses it.
pub fn carry_out(bench: &mut Bench, call: &Call<'_>) -> Result<(), Refusal>
    ensures answer { refusal_of result ≡ refusal OfBench (checks_of (shown bench.old) (said call.now)) }
    ensures facts { shown bench.new ≡ after (shown bench.old) (said call.now) }
{
    match call {
        Call::Inaugurate { etb, formation } => bench.inaugurate(*etb, formation),
        Call::Claim {
            identity,
            vehicle,
            direction,
        } => bench.claim(*identity, *vehicle, *direction),
        Call::Yield { identity } => bench.yield_claim(*identity),
        Call::Confirm { names } => bench.confirm(names),
        Call::Withdraw => bench.withdraw(),
    }
}

/// Carries out a list of calls in order, each acting or refused. From a new bench, what the bench
/// then shows is exactly what stands in the run.
pub fn play(bench: &mut Bench, calls: &[Call<'_>])
    ensures facts { shown bench.new ≡ after_all (shown bench.old) (run calls.now) }
    ensures stands { shown bench.old ≡ nothing → Shows (shown bench.new) (run calls.now) }
    ensures accepting { AcceptedAsTold (run calls.now) }
    ensures laws { StandingLaws (run calls.now) }
{
    for call in calls {
        let _ = carry_out(bench, call);
    }
}
