// Register create, register add, unregister.
ghost use Rattle.std.specs.Prelude.{◌≡◌};
ghost use Rattle.rules_base.specs.Refusals.{number_of};
ghost use Rattle.rules_node.specs.Register.{
  register_create_refusal,
  registered_create,
  register_create,
  takes_store,
  added_to,
  register_add_refusal,
  registered_add,
  register_add,
  gives_store,
  unregistered_to,
  unregister_refusal,
  wiped,
  unregistered,
  wipes,
  drops_staging,
  unregister,
};

use node_state::{change, turns};
use rules_base::Refusal;
use rules_node::{Node, OnMap, OnStaging, State, Turn};

#[tactic(auto, unfolding(rules_node::specs::Register::register_create_refusal))]
fn register_create_allowed(n: Node, lent: u64) -> Result<(), Refusal>
    ensures { number_of result ≡ register_create_refusal n lent }
{
    turns::allowed(n, lent)?;
    if n.state != State::Empty {
        return Err(Refusal::NotAllowed);
    }
    Ok(())
}

// EMPTY to REGISTERED, marked create: all that was known is gone.
#[tactic(auto, unfolding(rules_node::specs::Register::register_create))]
pub fn register_create(n: Node, lent: u64) -> Turn
    ensures { result ≡ register_create n lent }
{
    turns::settled(
        register_create_allowed(n, lent),
        n,
        turns::done(registered_create(n), OnMap::Zero, OnStaging::Keep),
    )
}

#[tactic(auto, unfolding(rules_node::specs::Register::registered_create))]
fn registered_create(n: Node) -> Node
    ensures { result ≡ registered_create n }
{
    let here = change::went_to(n, State::Registered);
    let bare = change::forgotten(change::equipped(here, true, true));
    change::instructed(bare, 0, map_numbers::sets::with(0, n.id))
}

#[tactic(auto, unfolding(rules_node::specs::Register::register_add_refusal))]
fn register_add_allowed(n: Node, lent: u64, set: u64, version: u64) -> Result<(), Refusal>
    ensures { number_of result ≡ register_add_refusal n lent set version }
{
    turns::allowed(n, lent)?;
    if 65535 < set {
        return Err(Refusal::BadId);
    }
    if !takes_store(n.state, n.store) {
        return Err(Refusal::NotAllowed);
    }
    if !map_numbers::sets::has(set, n.id) {
        return Err(Refusal::BadMembership);
    }
    if map_numbers::refusals::VERSION_LIMIT < version {
        return Err(Refusal::HighVersion);
    }
    Ok(())
}

// EMPTY to REGISTERED unmarked; NO_IO without store gets its store. Set and version are those of the store.
#[tactic(auto, unfolding(rules_node::specs::Register::register_add))]
pub fn register_add(n: Node, lent: u64, set: u64, version: u64) -> Turn
    ensures { result ≡ register_add n lent set version }
{
    turns::settled(
        register_add_allowed(n, lent, set, version),
        n,
        turns::done(
            registered_add(n, set, version),
            OnMap::Keep,
            OnStaging::Keep,
        ),
    )
}

#[tactic(auto, unfolding(rules_node::specs::Register::registered_add))]
fn registered_add(n: Node, set: u64, version: u64) -> Node
    ensures { result ≡ registered_add n set version }
{
    let here = change::went_to(n, added_to(n.state));
    change::instructed(change::equipped(here, true, false), version, set)
}

fn takes_store(s: State, store: bool) -> bool
    ensures { result ≡ takes_store s store }
{
    s == State::Empty || s == State::NoIo && !store
}

fn added_to(s: State) -> State
    ensures { result ≡ added_to s }
{
    if s == State::Empty {
        State::Registered
    } else {
        s
    }
}

#[tactic(auto, unfolding(rules_node::specs::Register::unregister_refusal))]
fn unregister_allowed(n: Node, lent: u64, delete: bool) -> Result<(), Refusal>
    ensures { number_of result ≡ unregister_refusal n lent delete }
{
    turns::allowed(n, lent)?;
    if !gives_store(n.state, n.store, delete) {
        return Err(Refusal::NotAllowed);
    }
    Ok(())
}

// REGISTERED to EMPTY; NO_IO stays without its store, and staging is dropped.
#[tactic(auto, unfolding(rules_node::specs::Register::unregister))]
pub fn unregister(n: Node, lent: u64, delete: bool) -> Turn
    ensures { result ≡ unregister n lent delete }
{
    turns::settled(
        unregister_allowed(n, lent, delete),
        n,
        turns::done(
            unregistered(n, delete),
            wipes(delete),
            drops_staging(n.state),
        ),
    )
}

#[tactic(auto, unfolding(rules_node::specs::Register::unregistered))]
fn unregistered(n: Node, delete: bool) -> Node
    ensures { result ≡ unregistered n delete }
{
    let here = change::went_to(n, unregistered_to(n.state));
    let bare = change::equipped(here, false, false);
    wiped(delete, change::ended_transfer(bare))
}

fn gives_store(s: State, store: bool, delete: bool) -> bool
    ensures { result ≡ gives_store s store delete }
{
    s == State::Registered || s == State::NoIo && store && !delete
}

fn unregistered_to(s: State) -> State
    ensures { result ≡ unregistered_to s }
{
    if s == State::Registered {
        State::Empty
    } else {
        s
    }
}

// Delete zeroes members and version.
#[tactic(auto, unfolding(rules_node::specs::Register::wiped))]
fn wiped(delete: bool, n: Node) -> Node
    ensures { result ≡ wiped delete n }
{
    if delete {
        change::instructed(n, 0, 0)
    } else {
        n
    }
}

fn wipes(delete: bool) -> OnMap
    ensures { result ≡ wipes delete }
{
    if delete { OnMap::Zero } else { OnMap::Keep }
}

fn drops_staging(s: State) -> OnStaging
    ensures { result ≡ drops_staging s }
{
    if s == State::NoIo {
        OnStaging::Zero
    } else {
        OnStaging::Keep
    }
}
