// What a replay keeps of each event and of each replica, and how both grow by a step.
//
// What an event has seen is a front of what its replica had taken, so it is kept as the replica and a length. Beside the state of
// each replica a second one is kept that reads alike, so that a step writes what it changes and copies nothing else.

ghost use Rattle.std.specs.Prelude.{◌≡◌, ◌+◌, ◌<◌, ◌^◌, true, [], ◌∷◌, ◌++◌, length, take, set};
ghost use Rattle.std.specs.Prelude.{get_or, slice_get, replicate, None, Some, All, List, OnOk};
ghost use Rattle.std.specs.Prelude.{OnErr, IfOk, IfErr};
ghost use Rattle.spec_core.specs.{State.{reads}, Meaning.{initial as initial_of}};
ghost use Rattle.spec_core.specs.Fits.{world_fits, call_fits, is_state};
ghost use Rattle.replica_replay.specs.Holding.{orders_of, seen_by_event, AreSpares, Leads};

use crate::order::Order;
use crate::runner::Runner;
use crate::step::{StepRefused, Taken};
use spec_core::Call;
use spec_states::State;
use std::alloc::{AllocError, Global};
use std::mem;

/// An event: a call, and what it has seen, as how many of the events that its replica had taken in the end.
#[derive(Drop)]
pub struct Happened {
    pub call: Call,
    pub replica: u32,
    pub before: usize,
}

/// A replica: what it has taken, and the state after that.
#[derive(Drop)]
pub struct Replica {
    pub order: Order,
    pub state: State,
}

impl Replica {
    // Takes an event, and gives the state before it.
    fn take(&mut self, event: u32, state: State) -> Result<State, AllocError>
        ensures order { OnOk result (self.new.order ≡ self.old.order ++ event ∷ []) }
        ensures state { OnOk result (self.new.state ≡ state) }
        ensures before { IfOk result (λ s. s ≡ self.old.state) }
        ensures err { OnErr result (self.new ≡ self.old) }
    {
        self.order.push(event)?;
        Ok(mem::replace(&mut self.state, state))
    }
}

/// Replicas in the initial state that have taken nothing.
pub fn first_replicas<R: Runner>(
    alloc: Global,
    runner: &R,
    count: u32,
) -> Result<Vec<Replica>, AllocError>
    ensures world { world_fits (R.specification runner.now) (R.setting runner.now) ≡ true }
    ensures orders { IfOk result (λ replicas. orders_of replicas.items ≡ replicate count []) }
    ensures states { IfOk result
        (λ replicas. All
        (λ replica. (is_state (R.specification runner.now) (R.setting runner.now)
        replica.state ≡ true)
        × (reads replica.state
        ≡ reads (initial_of (R.specification runner.now) (R.setting runner.now))))
        replicas.items) }
{
    let world = runner.world();
    let mut replicas = Vec::new(alloc);
    for _i in 0..count {
        let state = State::initial(alloc, runner.spec(), world)?;
        replicas.push(Replica {
            order: Order::new(alloc),
            state,
        })?;
    }
    Ok(replicas)
}

/// No second state for any of these replicas.
pub fn no_spares(alloc: Global, count: u32) -> Result<Vec<Option<State>>, AllocError>
    ensures { IfOk result (λ spares. spares.items ≡ replicate count None) }
{
    let mut spares = Vec::new(alloc);
    for _i in 0..count {
        spares.push(None)?;
    }
    Ok(spares)
}

/// Takes away the second state of a replica, to be written over.
pub fn take_spare(spares: &mut Vec<Option<State>>, replica: usize) -> Option<State>
    ensures spare { result ≡ get_or spares.old.items replica None }
    ensures left { spares.new.items ≡ set spares.old.items replica None }
{
    match spares.get_mut(replica) {
        Some(spare) => spare.take(),
        None => None,
    }
}

fn put_spare(spares: &mut Vec<Option<State>>, replica: usize, spare: Option<State>)
    ensures { spares.new.items ≡ set spares.old.items replica spare }
{
    if let Some(place) = spares.get_mut(replica) {
        *place = spare;
    }
}

/// How many replicas there are. A replay has as many at its end as at its start.
pub fn count(replicas: &[Replica]) -> usize
    ensures { result ≡ length replicas.now }
{
    replicas.len()
}

/// What an event has seen.
pub fn seen_by_event<'a>(replicas: &'a [Replica], event: &Happened) -> &'a [u32]
    ensures { result.now ≡ seen_by_event (orders_of replicas.now) event.now }
{
    match replicas.get(event.replica as usize) {
        Some(replica) => front(replica.order.as_slice(), event.before),
        None => &[],
    }
}

fn front(events: &[u32], before: usize) -> &[u32]
    ensures { result.now ≡ take before events.now }
{
    if before <= events.len() {
        &events[..before]
    } else {
        events
    }
}

/// A replica takes an event, which leads to this state. Gives the state before it.
pub fn note_taking(
    replicas: &mut Vec<Replica>,
    replica: usize,
    event: u32,
    state: State,
) -> Result<State, AllocError>
    requires { replica < length replicas.old.items }
    ensures before { IfOk result
        (λ s. (r : Replica) → slice_get replicas.old.items replica ≡ Some r → s ≡ r.state) }
    ensures ok { OnOk result
        (replicas.new.items ≡ set replicas.old.items replica
        (record {
          order = get_or (orders_of replicas.old.items) replica [] ++ event ∷ [];
          state = state;
        })) }
    ensures err { OnErr result (replicas.new.items ≡ replicas.old.items) }
{
    replicas[replica].take(event, state)
}

/// A call becomes the next event, and its replica takes it, which leads to this state. Gives the state before it.
pub fn note_call(
    happened: &mut Vec<Happened>,
    replicas: &mut Vec<Replica>,
    replica: u32,
    call: Call,
    state: State,
) -> Result<State, AllocError>
    requires replica { replica < length replicas.old.items }
    requires few { length happened.old.items < 2 ^ 32 }
    ensures few { OnOk result (length happened.old.items + 1 < 2 ^ 32) }
    ensures happened { OnOk result
        (happened.new.items ≡ happened.old.items
        ++ record {
          call = call;
          replica = replica;
          before = length (get_or (orders_of replicas.old.items) replica []);
        } ∷ []) }
    ensures replicas { OnOk result
        (replicas.new.items ≡ set replicas.old.items replica
        (record {
          order = get_or (orders_of replicas.old.items) replica []
              ++ length happened.old.items ∷ [];
          state = state;
        })) }
    ensures before { IfOk result
        (λ s. (r : Replica) → slice_get replicas.old.items replica ≡ Some r → s ≡ r.state) }
    ensures err { OnErr result
        ((happened.new.items ≡ happened.old.items) × (replicas.new.items ≡ replicas.old.items)) }
{
    let event = happened.len() as u32;
    if event == u32::MAX {
        return Err(AllocError);
    }
    let before = replicas[replica as usize].order.as_slice().len();
    let Ok(()) = happened.push(Happened {
        call,
        replica,
        before,
    }) else {
        return Err(AllocError);
    };
    let Ok(earlier) = note_taking(replicas, replica as usize, event, state) else {
        happened.pop();
        return Err(AllocError);
    };
    Ok(earlier)
}

// Brings the state before an event to read as the one after it, and keeps it as the replica's second state.
fn keep_spare<R: Runner>(
    runner: &R,
    call: &Call,
    replicas: &[Replica],
    spares: &mut Vec<Option<State>>,
    replica: usize,
    before: State,
)
    requires replica { replica < length replicas.now }
    requires call { call_fits (R.specification runner.now) (R.setting runner.now) call.now ≡ true }
    requires leads { (r : Replica) → slice_get replicas.now replica ≡ Some r
        → Leads (R.specification runner.now) (R.setting runner.now) call.now before r.state }
    ensures { (rs : List Replica) (x : Replica) → replicas.now ≡ set rs replica x
        → AreSpares (R.specification runner.now) (R.setting runner.now) rs spares.old.items
        → AreSpares (R.specification runner.now) (R.setting runner.now) replicas.now
        spares.new.items }
{
    let latest = &replicas[replica].state;
    let spare = runner.spare(call, latest, before);
    put_spare(spares, replica, spare);
}

/// A replica takes an event of this call, which leads to this state. Its second state, if it has one, is brought to read alike.
pub fn keep_taking<R: Runner>(
    runner: &R,
    call: &Call,
    replicas: &mut Vec<Replica>,
    spares: &mut Vec<Option<State>>,
    replica: usize,
    event: u32,
    state: State,
) -> Result<Taken, StepRefused>
    requires replica { replica < length replicas.old.items }
    requires call { call_fits (R.specification runner.now) (R.setting runner.now) call.now ≡ true }
    requires leads { (r : Replica) → slice_get replicas.old.items replica ≡ Some r
        → Leads (R.specification runner.now) (R.setting runner.now) call.now r.state state }
    ensures taken { IfOk result (λ t. t.event ≡ event) }
    ensures ok { OnOk result
        (replicas.new.items ≡ set replicas.old.items replica
        (record {
          order = get_or (orders_of replicas.old.items) replica [] ++ event ∷ [];
          state = state;
        })) }
    ensures err { OnErr result (replicas.new.items ≡ replicas.old.items) }
    ensures spares { AreSpares (R.specification runner.now) (R.setting runner.now)
        replicas.old.items spares.old.items
        → AreSpares (R.specification runner.now) (R.setting runner.now) replicas.new.items
        spares.new.items }
    ensures memory { IfErr result (λ why. why ≡ StepRefused.Memory) }
{
    let Ok(before) = note_taking(replicas, replica, event, state) else {
        return Err(StepRefused::Memory);
    };
    keep_spare(runner, call, replicas, spares, replica, before);
    Ok(Taken { event })
}

/// A call becomes the next event, and its replica takes it, which leads to this state.
pub fn keep_call<R: Runner>(
    runner: &R,
    happened: &mut Vec<Happened>,
    replicas: &mut Vec<Replica>,
    spares: &mut Vec<Option<State>>,
    replica: u32,
    call: Call,
    state: State,
) -> Result<Taken, StepRefused>
    requires replica { replica < length replicas.old.items }
    requires few { length happened.old.items < 2 ^ 32 }
    requires call { call_fits (R.specification runner.now) (R.setting runner.now) call ≡ true }
    requires leads { (r : Replica) → slice_get replicas.old.items replica ≡ Some r
        → Leads (R.specification runner.now) (R.setting runner.now) call r.state state }
    ensures taken { IfOk result (λ t. t.event ≡ length happened.old.items) }
    ensures few { OnOk result (length happened.old.items + 1 < 2 ^ 32) }
    ensures happened { OnOk result
        (happened.new.items ≡ happened.old.items
        ++ record {
          call = call;
          replica = replica;
          before = length (get_or (orders_of replicas.old.items) replica []);
        } ∷ []) }
    ensures replicas { OnOk result
        (replicas.new.items ≡ set replicas.old.items replica
        (record {
          order = get_or (orders_of replicas.old.items) replica []
              ++ length happened.old.items ∷ [];
          state = state;
        })) }
    ensures err { OnErr result
        ((happened.new.items ≡ happened.old.items) × (replicas.new.items ≡ replicas.old.items)) }
    ensures spares { AreSpares (R.specification runner.now) (R.setting runner.now)
        replicas.old.items spares.old.items
        → AreSpares (R.specification runner.now) (R.setting runner.now) replicas.new.items
        spares.new.items }
    ensures memory { IfErr result (λ why. why ≡ StepRefused.Memory) }
{
    let event = happened.len();
    let Ok(before) = note_call(happened, replicas, replica, call, state) else {
        return Err(StepRefused::Memory);
    };
    keep_spare(
        runner,
        &happened[event].call,
        replicas,
        spares,
        replica as usize,
        before,
    );
    Ok(Taken {
        event: event as u32,
    })
}
