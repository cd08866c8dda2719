//! Locks on what accounts hold, and notes of locks that other chains hold.
ghost use Rattle.std.specs.Prelude.{◌≡◌, ◌∷◌, ℕ, [], IfOk, MatchOption, MatchResult};
ghost use Rattle.std.specs.Option.{option_copied, option_map};
ghost use Rattle.locations.specs.declared.relative.Location.{Location};
ghost use Rattle.locations.specs.Reanchoring.{reanchored};
ghost use Rattle.asset_lists.specs.Units.{unit_of};
ghost use Rattle.asset_lists.specs.Moves.{moved};
ghost use Rattle.xcm_program.specs.declared.instruction.Instruction.{roll-Instruction};
ghost use Rattle.xcm_program.specs.declared.instruction.Instruction.TheOpen.{Instruction-F};
ghost use Rattle.exec_base.specs.Answers.{AnswersOrRefuses};
ghost use Rattle.exec_base.specs.Host as host;
ghost use Rattle.exec_base.specs.Host.{querier_from, lock_key, note_program, lock_refusal, asset_locked, unlock_refusal, asset_unlocked, note_key, note_refusal, asset_noted, request_key, unlock_program, request_refusal, asset_requested};
ghost use Rattle.exec_base.specs.Sending.{named_refusal, number_to, IsForwardable};
ghost use Rattle.chain_state.specs.PartOf.{part_of};
ghost use Rattle.chain_state.specs.Sends.{IsSendFault};
ghost use Rattle.chain_state.specs.Locks.{MayLock, MayNotLock, MayRequest, MayNotRequest, IsTold};

use crate::ChainState;
use asset_lists::{Asset, AssetId, Fun};
use chain_ids::ChainId;
use chain_queues::Cargo;
use exec_base::HostFault;
use locations::{Junction, Junctions, Location};
use operands::XcmError;
use plain_lists::{Boxed, Listed};
use std::alloc::{AllocError, Global};
use trust_tables::account_of;
use xcm_program::{Instruction, Program};

/// The id of a fungible asset; nothing else is locked.
fn lock_id(asset: &Asset) -> Option<&Location>
    ensures { option_copied result ≡ host.lock_id asset.now }
{
    match &asset.id {
        AssetId::Concrete(id) => match asset.fun {
            Fun::Fungible(_) => Some(id),
            Fun::NonFungible(_) => None,
        },
        AssetId::Abstract(_) => None,
    }
}

/// A message that tells of a lock.
fn note_of(
    alloc: Global,
    asset: Boxed<Asset>,
    owner: Boxed<Location>,
) -> Result<Program, AllocError>
    ensures { IfOk result (λ program. program
        ≡ roll-Instruction (Instruction-F.NoteUnlockable asset owner) ∷ []) }
{
    let mut items = Vec::with_capacity(alloc, 1)?;
    items.push(Instruction::NoteUnlockable { asset, owner })?;
    Ok(Listed::from_vec(items))
}

/// A message that asks to let a lock fall.
fn unlock_of(
    alloc: Global,
    asset: Boxed<Asset>,
    target: Boxed<Location>,
) -> Result<Program, AllocError>
    ensures { IfOk result (λ program. program
        ≡ roll-Instruction (Instruction-F.UnlockAsset asset target) ∷ []) }
{
    let mut items = Vec::with_capacity(alloc, 1)?;
    items.push(Instruction::UnlockAsset { asset, target })?;
    Ok(Listed::from_vec(items))
}

/// The asset as the target names it; none where it can't be named there. An `Err` is out of memory.
fn seen_asset(
    alloc: Global,
    asset: &Asset,
    target: &Location,
    context: &Junctions,
) -> Result<Option<Boxed<Asset>>, AllocError>
    ensures { IfOk result (λ seen. seen ≡ moved target.now context.now asset.now) }
{
    // For speed: it is written where it will be.
    let mut seen = Box::new(alloc, Asset::zero())?;
    if asset.reanchor_into(target, context, &mut *seen) {
        return Ok(Some(Boxed::from_box(seen)));
    }
    Ok(None)
}

/// The location as the target names it; none where it can't be named there. An `Err` is out of memory.
fn seen_place(
    alloc: Global,
    place: &Location,
    target: &Location,
    context: &Junctions,
) -> Result<Option<Boxed<Location>>, AllocError>
    ensures { IfOk result (λ seen. seen
        ≡ querier_from (reanchored place.now target.now context.now)) }
{
    // For speed: it is written where it will be.
    let mut seen = Box::new(alloc, Location::here())?;
    match place.reanchor_into(target, context, &mut *seen) {
        Ok(()) => Ok(Some(Boxed::from_box(seen))),
        Err(_) => Ok(None),
    }
}

/// The account that a location's last junction names.
fn last_account(place: &Location) -> Option<[u8; 32]>
    ensures { result ≡ host.last_account place.now.interior }
{
    last_in(place.interior.items())
}

/// The account that the last of some junctions names.
fn last_in(junctions: &[Junction]) -> Option<[u8; 32]>
    ensures { result ≡ host.last_account junctions.now }
{
    match junctions {
        [] => None,
        [Junction::AccountId32 { network: _, id }] => Some(*id),
        [_, rest @ ..] => last_in(rest),
    }
}

/// The account of a location on the chain itself that is just an account.
fn own_account(place: &Location) -> Option<[u8; 32]>
    ensures { result ≡ host.own_account place.now }
{
    match (place.parents, place.interior.items()) {
        (0, [Junction::AccountId32 { network: _, id }]) => Some(*id),
        _ => None,
    }
}

impl ChainState {
    /// The account and the asset of a lock.
    fn lock_place<'a>(&self, asset: &'a Asset, owner: &Location) -> Option<([u8; 32], &'a Location)>
        ensures { (unlocker : Location) → option_map (λ place. (place.0, place.1.now, unlocker))
            result ≡ lock_key (part_of self.now) asset.now owner.now unlocker }
    {
        let id = lock_id(asset)?;
        let who = account_of(owner, &self.settings.site)?;
        Some((who, id))
    }

    /// The account and the asset, where they may be locked.
    fn lockable<'a>(
        &self,
        asset: &'a Asset,
        owner: &Location,
        unlocker: &Location,
    ) -> Option<([u8; 32], &'a Location)>
        ensures { MatchOption result (MayNotLock (part_of self.now) asset.now owner.now
            unlocker.now) (λ place. MayLock (part_of self.now) asset.now owner.now unlocker.now
            (place.0, place.1.now, unlocker.now)) }
    {
        if !self.settings.locks {
            return None;
        }
        let (who, id) = self.lock_place(asset, owner)?;
        let own = !self.has_pool_account(&who);
        if self.has_row(asset) && own && asset.amount() <= self.ledger.held_of(&who, asset) {
            return Some((who, id));
        }
        None
    }

    /// The message that tells the unlocker of a lock, with the chain that it goes to; or why it isn't sent.
    fn ready_note(
        &self,
        asset: &Asset,
        owner: &Location,
        unlocker: &Location,
    ) -> Result<(ChainId, Vec<u8>), HostFault>
        requires forwardable { IsForwardable
            (roll-Instruction (Instruction-F.LockAsset asset.now unlocker.now) ∷ []) }
        ensures { MatchResult result
            (λ ready. IsTold (part_of self.now) unlocker.now
            (note_program (part_of self.now) asset.now owner.now unlocker.now) ready.0
            ready.1.items)
            (IsSendFault (named_refusal (part_of self.now) unlocker.now
            (note_program (part_of self.now) asset.now owner.now unlocker.now))) }
    {
        let alloc = *self.events.allocator();
        let context = self.settings.site.path();
        let Some(seen) = seen_asset(alloc, asset, unlocker, &context)? else {
            return Err(HostFault::Xcm(XcmError::ReanchorFailed));
        };
        let Some(place) = seen_place(alloc, owner, unlocker, &context)? else {
            return Err(HostFault::Xcm(XcmError::ReanchorFailed));
        };
        let program = note_of(alloc, seen, place)?;
        self.encoded_to(unlocker, &program)
    }

    /// Locks so much of the asset on the owner's account, and tells the unlocker.
    pub(crate) fn lock(
        &mut self,
        asset: &Asset,
        owner: &Location,
        unlocker: &Location,
    ) -> Result<u64, HostFault>
        requires forwardable { IsForwardable
            (roll-Instruction (Instruction-F.LockAsset asset.now unlocker.now) ∷ []) }
        ensures step { AnswersOrRefuses
            (lock_refusal (part_of self.old) asset.now owner.now unlocker.now)
            (number_to (part_of self.old) unlocker.now)
            (asset_locked (part_of self.old) asset.now owner.now unlocker.now) (part_of self.old)
            result (part_of self.new) }
    {
        let Some(place) = self.lockable(asset, owner, unlocker) else {
            return Err(HostFault::Xcm(XcmError::LockError));
        };
        let (to, bytes) = match self.ready_note(asset, owner, unlocker) {
            Ok(ready) => ready,
            Err(fault) => return Err(fault),
        };
        self.pending_events.reserve(1)?;
        self.locked
            .lock(&place.0, place.1, asset.amount(), unlocker)?;
        Ok(self.post(to, bytes, Cargo::Nothing))
    }

    /// Lets a lock fall, of which `from` is the unlocker. It takes no memory.
    #[tactic(auto, unfolding(exec_base::specs::Host::unlock_refusal, exec_base::specs::Host::asset_unlocked))]
    pub(crate) fn unlock(
        &mut self,
        asset: &Asset,
        target: &Location,
        from: &Location,
    ) -> Result<(), HostFault>
        ensures step { AnswersOrRefuses
            (unlock_refusal (part_of self.old) asset.now target.now from.now) tt
            (asset_unlocked (part_of self.old) asset.now target.now from.now) (part_of self.old)
            result (part_of self.new) }
    {
        if !self.settings.locks {
            return Err(HostFault::Xcm(XcmError::LockError));
        }
        let Some(place) = self.lock_place(asset, target) else {
            return Err(HostFault::Xcm(XcmError::LockError));
        };
        match self.locked.unlock(&place.0, place.1, asset.amount(), from) {
            Ok(()) => Ok(()),
            Err(_) => Err(HostFault::Xcm(XcmError::LockError)),
        }
    }

    /// Notes a lock that `from` holds.
    #[tactic(auto, unfolding(exec_base::specs::Host::note_key, exec_base::specs::Host::note_refusal, exec_base::specs::Host::asset_noted))]
    pub(crate) fn note(
        &mut self,
        asset: &Asset,
        owner: &Location,
        from: &Location,
    ) -> Result<(), HostFault>
        requires forwardable { IsForwardable
            (roll-Instruction (Instruction-F.NoteUnlockable asset.now owner.now) ∷ []) }
        ensures step { AnswersOrRefuses
            (note_refusal (part_of self.old) asset.now owner.now from.now) tt
            (asset_noted (part_of self.old) asset.now owner.now from.now) (part_of self.old) result
            (part_of self.new) }
    {
        if !self.settings.locks {
            return Err(HostFault::Xcm(XcmError::LockError));
        }
        let Some(id) = lock_id(asset) else {
            return Err(HostFault::Xcm(XcmError::LockError));
        };
        let Some(who) = last_account(owner) else {
            return Err(HostFault::Xcm(XcmError::LockError));
        };
        self.locked.note(from, id, asset.amount(), &who)?;
        Ok(())
    }

    /// The account of a note that is asked for, where so much is noted.
    #[tactic(auto, unfolding(exec_base::specs::Host::request_key))]
    fn requestable<'a>(
        &self,
        asset: &'a Asset,
        owner: &Location,
        locker: &Location,
    ) -> Option<([u8; 32], &'a Location)>
        ensures { MatchOption result (MayNotRequest (part_of self.now) asset.now owner.now
            locker.now) (λ place. MayRequest (part_of self.now) asset.now owner.now locker.now
            (locker.now, place.1.now, place.0)) }
    {
        if !self.settings.locks {
            return None;
        }
        let id = lock_id(asset)?;
        let who = own_account(owner)?;
        if asset.amount() <= self.locked.noted(locker, id, &who) {
            return Some((who, id));
        }
        None
    }

    /// The message that asks a locker to let a lock fall, with the chain that it goes to; or why it isn't sent.
    fn ready_request(
        &self,
        asset: &Asset,
        who: &[u8; 32],
        locker: &Location,
    ) -> Result<(ChainId, Vec<u8>), HostFault>
        requires forwardable { IsForwardable
            (roll-Instruction (Instruction-F.RequestUnlock asset.now locker.now) ∷ []) }
        ensures { (id : Location) → MatchResult result
            (λ ready. IsTold (part_of self.now) locker.now
            (unlock_program (part_of self.now) asset.now (Some (locker.now, id, who.now))
            locker.now) ready.0 ready.1.items)
            (IsSendFault (named_refusal (part_of self.now) locker.now
            (unlock_program (part_of self.now) asset.now (Some (locker.now, id, who.now))
            locker.now))) }
    {
        let alloc = *self.events.allocator();
        let Some(seen) = seen_asset(alloc, asset, locker, &self.settings.site.path())? else {
            return Err(HostFault::Xcm(XcmError::ReanchorFailed));
        };
        let account = [Junction::AccountId32 {
            network: None,
            id: *who,
        }];
        let target = Location {
            parents: 0,
            interior: Junctions::from_few(&account),
        };
        let target = Boxed::new(alloc, target)?;
        let program = unlock_of(alloc, seen, target)?;
        self.encoded_to(locker, &program)
    }

    /// Asks the locker to let a lock fall that is noted for the owner, and lowers the note.
    pub(crate) fn request(
        &mut self,
        asset: &Asset,
        owner: &Location,
        locker: &Location,
    ) -> Result<u64, HostFault>
        requires forwardable { IsForwardable
            (roll-Instruction (Instruction-F.RequestUnlock asset.now locker.now) ∷ []) }
        ensures step { AnswersOrRefuses
            (request_refusal (part_of self.old) asset.now owner.now locker.now)
            (number_to (part_of self.old) locker.now)
            (asset_requested (part_of self.old) asset.now owner.now locker.now) (part_of self.old)
            result (part_of self.new) }
    {
        let Some(place) = self.requestable(asset, owner, locker) else {
            return Err(HostFault::Xcm(XcmError::LockError));
        };
        let (to, bytes) = match self.ready_request(asset, &place.0, locker) {
            Ok(ready) => ready,
            Err(fault) => return Err(fault),
        };
        self.pending_events.reserve(1)?;
        match self
            .locked
            .reduce(locker, place.1, asset.amount(), &place.0)
        {
            Ok(()) => Ok(self.post(to, bytes, Cargo::Nothing)),
            Err(_) => unreachable!(),
        }
    }
}
