// A node, which runs calls and takes the events of others.

ghost use Rattle.std.specs.Prelude.{◌≡◌, ◌<◌, ◌||◌, not, true, None, IfOk, OnOk};
ghost use Rattle.std.specs.Option.{option_copied};
ghost use Rattle.spec_core.specs.{State.{reads}, Fits.{call_fits, is_state}};
ghost use Rattle.effectors.specs.{Effect.{after, after_call}, Beyond.{first_beyond}};
ghost use Rattle.effectors.specs.Spare.{IsSpare};
ghost use Rattle.token_protocol.specs.Ids.{is_among};
ghost use Rattle.token_protocol.specs.Node.{takes_none, turn_of, run, first_node, begin, hear};
ghost use Rattle.token_protocol.specs.Node.{hear_grant, grant_open, hear_done, take_within};
ghost use Rattle.token_protocol.specs.Node.{hear_void, first_open as first_open_of};
ghost use Rattle.token_core.specs.Held.{node_of, FitsIn, waiting_fits, message_fits};
ghost use Rattle.token_core.specs.Answered.{waiting_turn, HasRun, HasBegun, HasHeard};
ghost use Rattle.token_core.specs.Ended.{begun_of, heard_of, refused_effect};
ghost use Rattle.replica_replay.specs.Tried.{IsTried};

use crate::ids::Ids;
use effectors::ApplyRefused;
use replica_replay::{Runner, Tried, try_call_over};
use spec_core::Call;
use spec_states::State;
use std::alloc::{AllocError, Global};
use std::marker::Model;
use std::mem;
use token_manager::copy_call;
use token_protocol::{Begun, EventId, Heard, Message, NodeRefused, Request, WhyVoid, same_id};

/// A replica's node: its state, the calls that it has taken, those that it knows as void, and the call that waits for a grant.
#[derive(Drop)]
pub struct Node {
    alloc: Global,
    replica: u32,
    turn: u32,
    state: State,
    taken: Ids,
    void: Ids,
    waiting: Option<Request>,
}

impl Model for Node {
    ghost use Rattle.token_core.specs.Held.{HeldNode};

    ghost Value = { HeldNode };

    ghost view = { λ a. record { replica = a.replica; turn = a.turn; state = a.state; taken = a.taken; void = a.void; waiting = a.waiting } };
}

/// What comes of a call that is run: its Done, or why it is void, and its Void.
#[derive(Drop)]
pub enum Ended {
    Happened(Message),
    Voided(WhyVoid, Message),
}

fn begun(ended: Ended) -> Begun
    ensures { result ≡ begun_of ended }
{
    match ended {
        Ended::Happened(done) => Begun::Ran(done),
        Ended::Voided(why, void) => Begun::Void(why, void),
    }
}

fn heard(ended: Ended) -> Heard
    ensures { result ≡ heard_of ended }
{
    match ended {
        Ended::Happened(done) => Heard::Ran(done),
        Ended::Voided(why, void) => Heard::Void(why, void),
    }
}

// An effect's refusal is the node's.
fn refused_effect(why: ApplyRefused) -> NodeRefused
    ensures { result ≡ refused_effect why }
{
    match why {
        ApplyRefused::Range {
            counter,
            key,
            value,
        } => NodeRefused::Range {
            counter,
            key,
            value,
        },
        ApplyRefused::Memory => NodeRefused::Memory,
    }
}

// The state after a call takes the place of the one before it, of which the spare one is made.
fn move_to<R: Runner>(
    runner: &R,
    call: &Call,
    state: &mut State,
    spare: &mut Option<State>,
    next: State,
)
    requires state { is_state (R.specification runner.now) (R.setting runner.now) state.old ≡ true }
    requires call { call_fits (R.specification runner.now) (R.setting runner.now) call.now ≡ true }
    requires reads { reads next
        ≡ after (R.specification runner.now) (R.setting runner.now) call.now (reads state.old) }
    ensures state { state.new ≡ next }
    ensures spare { IsSpare (R.specification runner.now) (R.setting runner.now) state.new spare.new }
{
    let before = mem::replace(state, next);
    *spare = runner.spare(call, state, before);
}

impl Node {
    /// The node of a replica in the initial state, which has taken nothing and used up no turn.
    pub fn new<R: Runner>(alloc: Global, runner: &R, replica: u32) -> Result<Node, AllocError>
        ensures node { IfOk result
            (λ node. node_of node
            ≡ first_node (R.specification runner.now) (R.setting runner.now) replica) }
        ensures fits { IfOk result
            (λ node. is_state (R.specification runner.now) (R.setting runner.now)
            node.state ≡ true) }
    {
        let state = State::initial(alloc, runner.spec(), runner.world())?;
        Ok(Node {
            alloc,
            replica,
            turn: 0,
            state,
            taken: Ids::new(alloc),
            void: Ids::new(alloc),
            waiting: None,
        })
    }

    /// How many turns are used up.
    pub fn turn(&self) -> u32
        ensures { result ≡ self.now.turn }
    {
        self.turn
    }

    /// The state after the events that the node has taken.
    pub fn state(&self) -> &State
        ensures { result.now ≡ self.now.state }
    {
        &self.state
    }

    /// The call that waits for a grant, if one does.
    pub fn waiting(&self) -> Option<&Request>
        ensures { option_copied result ≡ self.now.waiting }
    {
        self.waiting.as_ref()
    }

    // Ends a call that was tried: it happens, or it is void.
    fn end<R: Runner>(
        &mut self,
        runner: &R,
        id: EventId,
        call: Call,
        tried: Tried,
        spare: &mut Option<State>,
    ) -> Result<Ended, AllocError>
        requires fits { FitsIn (R.specification runner.now) (R.setting runner.now) self.old.state
            spare.old }
        requires call { call_fits (R.specification runner.now) (R.setting runner.now) call ≡ true }
        requires tried { IsTried (R.specification runner.now) (R.setting runner.now)
            (reads self.old.state) call tried }
        ensures run { HasRun self.old self.new
            (run (R.specification runner.now) (R.setting runner.now) (node_of self.old) id call)
            result }
        ensures fits { FitsIn (R.specification runner.now) (R.setting runner.now) self.new.state
            spare.new }
    {
        match tried {
            Tried::Never(why) => {
                self.void.push(id)?;
                Ok(Ended::Voided(why, Message::Void { id }))
            }
            Tried::Ready(state) => {
                let seen = self.taken.listed()?;
                self.taken.push(id)?;
                move_to(runner, &call, &mut self.state, spare, state);
                Ok(Ended::Happened(Message::Done { id, call, seen }))
            }
        }
    }

    // Runs a call.
    fn run<R: Runner>(
        &mut self,
        runner: &R,
        spare: &mut Option<State>,
        id: EventId,
        call: Call,
    ) -> Result<Ended, AllocError>
        requires fits { FitsIn (R.specification runner.now) (R.setting runner.now) self.old.state
            spare.old }
        requires call { call_fits (R.specification runner.now) (R.setting runner.now) call ≡ true }
        ensures run { HasRun self.old self.new
            (run (R.specification runner.now) (R.setting runner.now) (node_of self.old) id call)
            result }
        ensures fits { FitsIn (R.specification runner.now) (R.setting runner.now) self.new.state
            spare.new }
    {
        let tried = try_call_over(runner, &self.state, spare, &call)?;
        self.end(runner, id, call, tried, spare)
    }

    // A call without a takes line is run at once, and uses up a turn.
    fn run_next<R: Runner>(
        &mut self,
        runner: &R,
        spare: &mut Option<State>,
        id: EventId,
        call: &Call,
    ) -> Result<Begun, NodeRefused>
        requires turn { self.old.turn < 4000000000 }
        requires fits { FitsIn (R.specification runner.now) (R.setting runner.now) self.old.state
            spare.old }
        requires call { call_fits (R.specification runner.now) (R.setting runner.now) call.now
            ≡ true }
        requires free { takes_none (R.specification runner.now) call.now ≡ true }
        ensures begun { HasBegun self.old self.new
            (turn_of (R.specification runner.now) (R.setting runner.now) (node_of self.old) id
            call.now)
            result }
        ensures fits { FitsIn (R.specification runner.now) (R.setting runner.now) self.new.state
            spare.new }
    {
        let call = copy_call(self.alloc, call)?;
        let ended = self.run(runner, spare, id, call)?;
        self.turn += 1;
        Ok(begun(ended))
    }

    // A call that waits for a grant, with its turn used up.
    fn wait(&mut self, id: EventId, call: &Call) -> Result<Begun, NodeRefused>
        requires turn { self.old.turn < 4000000000 }
        ensures begun { HasBegun self.old self.new (waiting_turn (node_of self.old) id call.now)
            result }
        ensures state { self.new.state ≡ self.old.state }
    {
        let asked = copy_call(self.alloc, call)?;
        let waiting = copy_call(self.alloc, call)?;
        self.turn += 1;
        self.waiting = Some(Request { id, call: waiting });
        Ok(Begun::Asked(Request { id, call: asked }))
    }

    /// What `begin` does, with a spare state that an effect may be written over, and one that is brought up to date.
    pub fn begin_over<R: Runner>(
        &mut self,
        runner: &R,
        spare: &mut Option<State>,
        call: &Call,
    ) -> Result<Begun, NodeRefused>
        requires turn { self.old.turn < 4000000000 }
        requires fits { FitsIn (R.specification runner.now) (R.setting runner.now) self.old.state
            spare.old }
        ensures begun { HasBegun self.old self.new
            (begin (R.specification runner.now) (R.setting runner.now) (node_of self.old) call.now)
            result }
        ensures fits { FitsIn (R.specification runner.now) (R.setting runner.now) self.new.state
            spare.new }
    {
        if !call.fits(runner.spec(), runner.world()) {
            return Err(NodeRefused::Arguments);
        }
        if let Some(waiting) = &self.waiting {
            return Err(NodeRefused::Waiting { id: waiting.id });
        }
        let id = EventId {
            replica: self.replica,
            turn: self.turn,
        };
        if runner.spec().takes_of(call.op).is_empty() {
            self.run_next(runner, spare, id, call)
        } else {
            self.wait(id, call)
        }
    }

    /// The replica makes a call, which uses up a turn: that turn is in the call's id. A call whose operation has a takes line waits;
    /// any other is run at once. It is refused where it doesn't fit, and then where another call waits; a refusal changes nothing.
    pub fn begin<R: Runner>(&mut self, runner: &R, call: &Call) -> Result<Begun, NodeRefused>
        requires turn { self.old.turn < 4000000000 }
        requires state { is_state (R.specification runner.now) (R.setting runner.now) self.old.state
            ≡ true }
        ensures begun { HasBegun self.old self.new
            (begin (R.specification runner.now) (R.setting runner.now) (node_of self.old) call.now)
            result }
        ensures fits { OnOk result
            (is_state (R.specification runner.now) (R.setting runner.now) self.new.state ≡ true) }
    {
        let mut spare = None;
        self.begin_over(runner, &mut spare, call)
    }

    // The call of this id was neither taken nor is known as void.
    fn is_open(&self, id: EventId) -> bool
        ensures { result ≡ not (is_among self.now.taken id || is_among self.now.void id) }
    {
        !(self.taken.has(id) || self.void.has(id))
    }

    // The first of some ids that was neither taken nor is known as void.
    fn first_open(&self, ids: &[EventId]) -> Option<EventId>
        ensures { result ≡ first_open_of (node_of self.now) ids.now }
    {
        for id in ids {
            if self.is_open(*id) {
                return Some(*id);
            }
        }
        None
    }

    // The waiting call is run, and waits no longer.
    fn run_waiting<R: Runner>(
        &mut self,
        runner: &R,
        spare: &mut Option<State>,
        id: EventId,
        call: Call,
    ) -> Result<Heard, NodeRefused>
        requires fits { FitsIn (R.specification runner.now) (R.setting runner.now) self.old.state
            spare.old }
        requires call { call_fits (R.specification runner.now) (R.setting runner.now) call ≡ true }
        ensures heard { HasHeard self.old self.new
            (grant_open (R.specification runner.now) (R.setting runner.now) (node_of self.old)
            (record { id = id; call = call }) None)
            result }
        ensures fits { FitsIn (R.specification runner.now) (R.setting runner.now) self.new.state
            spare.new }
    {
        let ended = self.run(runner, spare, id, call)?;
        self.waiting = None;
        Ok(heard(ended))
    }

    // The node gets a Grant.
    fn hear_grant<R: Runner>(
        &mut self,
        runner: &R,
        spare: &mut Option<State>,
        id: EventId,
        after: &[EventId],
    ) -> Result<Heard, NodeRefused>
        requires fits { FitsIn (R.specification runner.now) (R.setting runner.now) self.old.state
            spare.old }
        requires waiting { waiting_fits (R.specification runner.now) (R.setting runner.now)
            self.old.waiting ≡ true }
        ensures heard { HasHeard self.old self.new
            (hear_grant (R.specification runner.now) (R.setting runner.now) (node_of self.old) id
            after.now self.old.waiting)
            result }
        ensures fits { FitsIn (R.specification runner.now) (R.setting runner.now) self.new.state
            spare.new }
    {
        let Some(waiting) = &self.waiting else {
            return Ok(Heard::Old);
        };
        if !same_id(waiting.id, id) {
            return Ok(Heard::Old);
        }
        if let Some(missing) = self.first_open(after) {
            return Ok(Heard::Awaits(missing));
        }
        let id = waiting.id;
        let call = copy_call(self.alloc, &waiting.call)?;
        self.run_waiting(runner, spare, id, call)
    }

    // The node takes an event of which all that it has seen was taken.
    fn take<R: Runner>(
        &mut self,
        runner: &R,
        spare: &mut Option<State>,
        id: EventId,
        call: &Call,
    ) -> Result<Heard, NodeRefused>
        requires fits { FitsIn (R.specification runner.now) (R.setting runner.now) self.old.state
            spare.old }
        requires call { call_fits (R.specification runner.now) (R.setting runner.now) call.now
            ≡ true }
        ensures heard { HasHeard self.old self.new
            (take_within (R.specification runner.now) (R.setting runner.now) (node_of self.old) id
            call.now
            (first_beyond 0
            (after_call (R.specification runner.now) (R.setting runner.now) call.now
            (reads self.old.state)).counters))
            result }
        ensures fits { FitsIn (R.specification runner.now) (R.setting runner.now) self.new.state
            spare.new }
    {
        match runner.effect_over(&self.state, spare.take(), call) {
            Ok(next) => {
                self.taken.push(id)?;
                move_to(runner, call, &mut self.state, spare, next);
                Ok(Heard::Took)
            }
            Err(why) => Err(refused_effect(why)),
        }
    }

    // The node gets a Done.
    fn hear_done<R: Runner>(
        &mut self,
        runner: &R,
        spare: &mut Option<State>,
        id: EventId,
        call: &Call,
        seen: &[EventId],
    ) -> Result<Heard, NodeRefused>
        requires fits { FitsIn (R.specification runner.now) (R.setting runner.now) self.old.state
            spare.old }
        requires call { call_fits (R.specification runner.now) (R.setting runner.now) call.now
            ≡ true }
        ensures heard { HasHeard self.old self.new
            (hear_done (R.specification runner.now) (R.setting runner.now) (node_of self.old) id
            call.now seen.now)
            result }
        ensures fits { FitsIn (R.specification runner.now) (R.setting runner.now) self.new.state
            spare.new }
    {
        if self.taken.has(id) {
            return Ok(Heard::Old);
        }
        if let Some(missing) = self.taken.first_outside(seen) {
            return Ok(Heard::Awaits(missing));
        }
        self.take(runner, spare, id, call)
    }

    // The node gets a Void.
    fn hear_void(&mut self, id: EventId) -> Result<Heard, NodeRefused>
        ensures heard { HasHeard self.old self.new (hear_void (node_of self.old) id) result }
        ensures state { self.new.state ≡ self.old.state }
    {
        if self.void.has(id) {
            return Ok(Heard::Old);
        }
        self.void.push(id)?;
        Ok(Heard::Noted)
    }

    /// What `hear` does, with a spare state that an effect may be written over, and one that is brought up to date.
    pub fn hear_over<R: Runner>(
        &mut self,
        runner: &R,
        spare: &mut Option<State>,
        message: &Message,
    ) -> Result<Heard, NodeRefused>
        requires fits { FitsIn (R.specification runner.now) (R.setting runner.now) self.old.state
            spare.old }
        requires waiting { waiting_fits (R.specification runner.now) (R.setting runner.now)
            self.old.waiting ≡ true }
        requires message { message_fits (R.specification runner.now)
            (R.setting runner.now) message.now ≡ true }
        ensures heard { HasHeard self.old self.new
            (hear (R.specification runner.now) (R.setting runner.now) (node_of self.old)
            message.now) result }
        ensures fits { FitsIn (R.specification runner.now) (R.setting runner.now) self.new.state
            spare.new }
    {
        match message {
            Message::Grant { id, after } => {
                let after = after.to_items()?;
                self.hear_grant(runner, spare, *id, after.as_slice())
            }
            Message::Done { id, call, seen } => {
                let seen = seen.to_items()?;
                self.hear_done(runner, spare, *id, call, seen.as_slice())
            }
            Message::Void { id } => self.hear_void(*id),
        }
    }

    /// The node gets a message. The grant of the waiting call lets it run once each call that the grant names was taken or is known
    /// as void. A Done is taken once, after all that its event had seen, and refused as `Range` where its effect leads beyond the
    /// range of a state. A Void is noted once. Whatever else it gets is old. A refusal changes nothing.
    pub fn hear<R: Runner>(&mut self, runner: &R, message: &Message) -> Result<Heard, NodeRefused>
        requires state { is_state (R.specification runner.now) (R.setting runner.now) self.old.state
            ≡ true }
        requires waiting { waiting_fits (R.specification runner.now) (R.setting runner.now)
            self.old.waiting ≡ true }
        requires message { message_fits (R.specification runner.now)
            (R.setting runner.now) message.now ≡ true }
        ensures heard { HasHeard self.old self.new
            (hear (R.specification runner.now) (R.setting runner.now) (node_of self.old)
            message.now) result }
        ensures fits { OnOk result
            (is_state (R.specification runner.now) (R.setting runner.now) self.new.state ≡ true) }
    {
        let mut spare = None;
        self.hear_over(runner, &mut spare, message)
    }
}
