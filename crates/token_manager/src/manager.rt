// The manager, which grants calls.
//
// A call meets only the grants of calls that can conflict with it by their operations, which an index tells, and of those it passes over
// the ones whose argument isn't the one that all rules want, before it asks the rules. A manager in one world goes on from the grant of
// an earlier call that takes the same tokens: it names all before it that conflict, so only those from it on are met.

ghost use Rattle.std.specs.Prelude.{◌≡◌, [], ◌∷◌, ◌++◌, cond, map, filter, drop, slice_get, OnOk};
ghost use Rattle.std.specs.{Prelude.{OnErr, IfOk, IfSome}, List.{find}};
ghost use Rattle.std.specs.Option.{option_copied, option_map};
ghost use Rattle.token_protocol.specs.Manager.{conflicting, grant_of, grant_message, new_grant};
ghost use Rattle.token_protocol.specs.Manager.{asked};
ghost use Rattle.token_rules.specs.{Conflict.{conflicts}, Rivals.{rivals_of}};
ghost use Rattle.token_manager.specs.{Index.{numbers_from}, Named.{id_if, ids_at}};
ghost use Rattle.token_manager.specs.Grants.{AreGrants, IsAlikeAt};

use crate::alike::{take_alike, token_sum};
use crate::index::GrantIndex;
use items::{Items, SharedList};
use spec_core::{Call, Spec, World};
use std::alloc::{AllocError, Global};
use std::collections::HashMap;
use std::marker::Model;
use token_protocol::{EventId, Granted, Message, Request, same_id};
use token_rules::{Rivalry, conflicts, may_conflict, rivals_of};

/// What was granted so far, in the order granted. Contracts see the list.
#[derive(Drop)]
pub struct Manager {
    alloc: Global,
    granted: Items<Granted>,
    index: GrantIndex,
    /// For the tokens that a call takes, as `token_sum` adds them up, the number of the latest grant of such a call. What stands here
    /// is tested before it is used.
    latest: HashMap<u64, usize>,
}

impl Model for Manager {
    ghost use Rattle.std.specs.Prelude.{List};
    ghost use Rattle.token_protocol.specs.declared.granted.Granted.{Granted};
    ghost use Rattle.token_manager.specs.Index.{AreUpTo};

    ghost Value = { List Granted };

    ghost view = { λ a. a.granted };

    ghost invariant = { λ a. AreUpTo a.granted a.index };
}

/// A copy of a call.
pub fn copy_call(alloc: Global, call: &Call) -> Result<Call, AllocError>
    ensures { IfOk result (λ copy. copy ≡ call.now) }
{
    let args = Items::from_slice(alloc, call.args.as_slice())?;
    Ok(Call { op: call.op, args })
}

// What was granted to an id.
fn grant_of(granted: &[Granted], id: EventId) -> Option<&Granted>
    ensures { option_copied result ≡ grant_of granted.now id }
{
    for found in granted {
        if same_id(found.id, id) {
            return Some(found);
        }
    }
    None
}

/// A call that is to be granted, with how calls of each operation can conflict with it.
#[derive(Drop)]
struct NewCall<'a> {
    spec: &'a Spec,
    world: &'a World,
    call: &'a Call,
    rivals: &'a [Rivalry],
    ghost rivals_are: { rivals.now ≡ rivals_of spec.now call.now.op },
}

impl<'a> NewCall<'a> {
    // A granted call conflicts with it.
    fn conflicts_with(&self, granted: &Call) -> bool
        ensures { result
            ≡ conflicts self.now.spec.now self.now.world.now granted.now self.now.call.now }
    {
        if !may_conflict(self.rivals, granted, self.call) {
            return false;
        }
        conflicts(self.spec, self.world, granted, self.call)
    }
}

// Adds the id of a granted call where it conflicts with another call.
fn add_conflicting(
    new: &NewCall,
    ids: &mut SharedList<EventId>,
    granted: &Granted,
) -> Result<(), AllocError>
    ensures { OnOk result
        (ids.new
        ≡ ids.old
        ++ cond (conflicts new.now.spec.now new.now.world.now granted.now.call new.now.call.now)
        (granted.now.id ∷ []) []) }
{
    if new.conflicts_with(&granted.call) {
        ids.push(granted.id)?;
    }
    Ok(())
}

// Adds the id of the granted call of this number, if there is one, where it conflicts with another call.
fn add_numbered(
    new: &NewCall,
    ids: &mut SharedList<EventId>,
    granted: &Items<Granted>,
    number: usize,
) -> Result<(), AllocError>
    ensures { OnOk result
        (ids.new
        ≡ ids.old
        ++ id_if new.now.spec.now new.now.world.now new.now.call.now
        (slice_get granted.now number)) }
{
    match granted.get(number) {
        Some(earlier) => add_conflicting(new, ids, earlier),
        None => Ok(()),
    }
}

// The calls granted so far that conflict with a call, in the order granted. Those on the list of its operation have these numbers.
fn conflicting(
    alloc: Global,
    new: &NewCall,
    granted: &Items<Granted>,
    numbers: &[usize],
) -> Result<SharedList<EventId>, AllocError>
    requires numbers { numbers.now ≡ numbers_from new.now.rivals.now 0 granted.now }
    ensures { IfOk result
        (λ ids. ids
        ≡ conflicting new.now.spec.now new.now.world.now granted.now new.now.call.now) }
{
    let mut ids = SharedList::new(alloc);
    for number in numbers {
        add_numbered(new, &mut ids, granted, *number)?;
    }
    Ok(ids)
}

// Adds the ids of the granted calls, from this number on, that conflict with a call, in their order.
fn add_from(
    new: &NewCall,
    ids: &mut SharedList<EventId>,
    granted: &[Granted],
    from: usize,
) -> Result<(), AllocError>
    ensures { OnOk result
        (ids.new
        ≡ ids.old
        ++ conflicting new.now.spec.now new.now.world.now (drop from granted.now)
        new.now.call.now) }
{
    for number in from..granted.len() {
        add_conflicting(new, ids, &granted[number])?;
    }
    Ok(())
}

// The calls granted so far that conflict with a call, in the order granted, by an earlier grant of a call with its tokens: those that this
// grant names, and those from it on.
fn conflicting_behind(
    new: &NewCall,
    granted: &[Granted],
    number: usize,
) -> Result<SharedList<EventId>, AllocError>
    requires kept { AreGrants new.now.spec.now new.now.world.now granted.now }
    requires alike { IsAlikeAt new.now.spec.now new.now.world.now granted.now new.now.call.now
        number }
    ensures { IfOk result
        (λ ids. ids
        ≡ conflicting new.now.spec.now new.now.world.now granted.now new.now.call.now) }
{
    let mut ids = granted[number].after.share()?;
    add_from(new, &mut ids, granted, number)?;
    Ok(ids)
}

// The message that tells of a grant.
fn message_of(granted: &Granted) -> Result<Message, AllocError>
    ensures { IfOk result (λ m. m ≡ grant_message granted.now) }
{
    let after = granted.after.share()?;
    Ok(Message::Grant {
        id: granted.id,
        after,
    })
}

impl Manager {
    /// A manager that has granted nothing.
    pub fn new(alloc: Global) -> Manager
        ensures { result ≡ [] }
    {
        Manager {
            alloc,
            granted: Items::new(alloc),
            index: GrantIndex::new(alloc),
            latest: HashMap::new(alloc),
        }
    }

    // The calls granted so far that conflict with a call, in the order granted.
    fn named(
        &mut self,
        spec: &Spec,
        world: &World,
        call: &Call,
    ) -> Result<SharedList<EventId>, AllocError>
        ensures ids { IfOk result (λ ids. ids ≡ conflicting spec.now world.now self.old call.now) }
        ensures same { self.new ≡ self.old }
    {
        let rivals = rivals_of(self.alloc, spec, call.op)?;
        let granted = self.granted.as_slice();
        self.index.catch_up(self.alloc, call.op, &rivals, granted)?;
        let numbers = self.index.numbers(call.op);
        let new = NewCall {
            spec,
            world,
            call,
            rivals: rivals.as_slice(),
        };
        conflicting(self.alloc, &new, &self.granted, numbers)
    }

    // The number of an earlier grant of a call that takes the tokens of a call, if one is known.
    fn alike(&self, spec: &Spec, world: &World, call: &Call) -> Option<usize>
        ensures { IfSome result (IsAlikeAt spec.now world.now self.now call.now) }
    {
        let number = *self.latest.get(&token_sum(spec, world, call))?;
        let earlier = self.granted.get(number)?;
        if !take_alike(spec, world, &earlier.call, call) {
            return None;
        }
        Some(number)
    }

    // The same as `named`, where each grant so far names what it is to name.
    fn named_by_tokens(
        &mut self,
        spec: &Spec,
        world: &World,
        call: &Call,
    ) -> Result<SharedList<EventId>, AllocError>
        requires { AreGrants spec.now world.now self.old }
        ensures ids { IfOk result (λ ids. ids ≡ conflicting spec.now world.now self.old call.now) }
        ensures same { self.new ≡ self.old }
    {
        let Some(number) = self.alike(spec, world, call) else {
            return self.named(spec, world, call);
        };
        let rivals = rivals_of(self.alloc, spec, call.op)?;
        let granted = self.granted.as_slice();
        let new = NewCall {
            spec,
            world,
            call,
            rivals: rivals.as_slice(),
        };
        conflicting_behind(&new, granted, number)
    }

    // What was granted to an id, if something was.
    fn told_again(&self, id: EventId) -> Result<Option<Message>, AllocError>
        ensures { IfOk result (λ m. m ≡ option_map grant_message (grant_of self.now id)) }
    {
        let Some(granted) = grant_of(self.granted.as_slice(), id) else {
            return Ok(None);
        };
        let message = message_of(granted)?;
        Ok(Some(message))
    }

    // Grants a call that has no grant so far, by the conflicting calls granted before.
    fn grant(
        &mut self,
        spec: &Spec,
        world: &World,
        request: &Request,
        after: SharedList<EventId>,
    ) -> Result<Message, AllocError>
        requires { after ≡ conflicting spec.now world.now self.old request.now.call }
        ensures message { IfOk result
            (λ m. m ≡ grant_message (new_grant spec.now world.now self.old request.now)) }
        ensures granted { OnOk result
            (self.new ≡ self.old ++ new_grant spec.now world.now self.old request.now ∷ []) }
        ensures err { OnErr result (self.new ≡ self.old) }
    {
        let call = copy_call(self.alloc, &request.call)?;
        let granted = Granted {
            id: request.id,
            call,
            after,
        };
        let message = message_of(&granted)?;
        let number = self.granted.len();
        self.granted.push(granted)?;
        let _ = self
            .latest
            .insert(token_sum(spec, world, &request.call), number);
        Ok(message)
    }

    /// Grants a call. The grant names the calls granted before that conflict with it, in the order granted; a call that was granted
    /// gets the same grant again. A refusal changes nothing.
    pub fn ask(
        &mut self,
        spec: &Spec,
        world: &World,
        request: &Request,
    ) -> Result<Message, AllocError>
        ensures message { IfOk result
            (λ m. m ≡ (asked spec.now world.now self.old request.now).message) }
        ensures granted { OnOk result
            (self.new ≡ (asked spec.now world.now self.old request.now).granted) }
        ensures err { OnErr result (self.new ≡ self.old) }
    {
        if let Some(message) = self.told_again(request.id)? {
            return Ok(message);
        }
        let after = self.named(spec, world, &request.call)?;
        self.grant(spec, world, request, after)
    }

    /// The same, by a manager of which each grant names what it is to name in this world. It compares a call with the grants since the last
    /// call that took the same tokens.
    pub fn ask_by_tokens(
        &mut self,
        spec: &Spec,
        world: &World,
        request: &Request,
    ) -> Result<Message, AllocError>
        requires { AreGrants spec.now world.now self.old }
        ensures message { IfOk result
            (λ m. m ≡ (asked spec.now world.now self.old request.now).message) }
        ensures granted { OnOk result
            (self.new ≡ (asked spec.now world.now self.old request.now).granted) }
        ensures err { OnErr result (self.new ≡ self.old) }
    {
        if let Some(message) = self.told_again(request.id)? {
            return Ok(message);
        }
        let after = self.named_by_tokens(spec, world, &request.call)?;
        self.grant(spec, world, request, after)
    }
}
