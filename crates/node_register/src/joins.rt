// Join create, assemble or rejoin, leave.
ghost use Rattle.std.specs.Prelude.{◌≡◌};
ghost use Rattle.rules_base.specs.Refusals.{number_of};
ghost use Rattle.rules_node.specs.Join.{
  own_row,
  join_create_refusal,
  joined_create,
  join_create,
  assembles,
  assemble_refusal,
  assemble,
  left_to,
  leave_refusal,
  left,
  leaves,
  leave,
};

use node_state::{change, states, turns};
use rules_base::Refusal;
use rules_node::{Node, OnMap, OnStaging, State, Turn};

// The node's own row alone.
fn own_row(n: Node) -> OnMap
    ensures { result ≡ own_row n }
{
    OnMap::KeepRows(map_numbers::sets::with(0, n.id))
}

#[tactic(auto, unfolding(rules_node::specs::Join::join_create_refusal))]
fn join_create_allowed(n: Node, lent: u64, set: u64) -> Result<(), Refusal>
    ensures { number_of result ≡ join_create_refusal n lent set }
{
    turns::allowed(n, lent)?;
    if 65535 < set {
        return Err(Refusal::BadId);
    }
    if n.state != State::Registered || !n.create {
        return Err(Refusal::NotAllowed);
    }
    Ok(())
}

// REGISTERED marked to CREATED, with the members as given and itself.
#[tactic(auto, unfolding(rules_node::specs::Join::join_create))]
pub fn join_create(n: Node, lent: u64, set: u64) -> Turn
    ensures { result ≡ join_create n lent set }
{
    turns::settled(
        join_create_allowed(n, lent, set),
        n,
        turns::done(joined_create(n, set), own_row(n), OnStaging::Keep),
    )
}

#[tactic(auto, unfolding(rules_node::specs::Join::joined_create))]
fn joined_create(n: Node, set: u64) -> Node
    ensures { result ≡ joined_create n set }
{
    let here = change::went_to(n, State::Created);
    change::taken_over(
        change::equipped(here, n.store, false),
        map_numbers::sets::with(set, n.id),
    )
}

#[tactic(auto, unfolding(rules_node::specs::Join::assemble_refusal))]
fn assemble_allowed(n: Node, lent: u64) -> Result<(), Refusal>
    ensures { number_of result ≡ assemble_refusal n lent }
{
    turns::allowed(n, lent)?;
    if !assembles(n.state, n.store, n.create) {
        return Err(Refusal::NotAllowed);
    }
    Ok(())
}

// Assemble or rejoin: REGISTERED unmarked, NORMAL, NO_IO with store, to NO_IO. A transfer survives it.
#[tactic(auto, unfolding(rules_node::specs::Join::assemble))]
pub fn assemble(n: Node, lent: u64) -> Turn
    ensures { result ≡ assemble n lent }
{
    turns::settled(
        assemble_allowed(n, lent),
        n,
        turns::done(
            change::went_to(n, State::NoIo),
            OnMap::Keep,
            OnStaging::Keep,
        ),
    )
}

fn assembles(s: State, store: bool, create: bool) -> bool
    ensures { result ≡ assembles s store create }
{
    match s {
        State::Registered => !create,
        State::Normal => true,
        State::NoIo => store,
        State::Empty | State::Created => false,
    }
}

#[tactic(auto, unfolding(rules_node::specs::Join::leave_refusal))]
fn leave_allowed(n: Node, lent: u64) -> Result<(), Refusal>
    ensures { number_of result ≡ leave_refusal n lent }
{
    turns::allowed(n, lent)?;
    if !states::is_joined(n.state) {
        return Err(Refusal::NotAllowed);
    }
    Ok(())
}

// CREATED, NORMAL, NO_IO to REGISTERED, or to EMPTY without store. Delete keeps its own row alone.
#[tactic(auto, unfolding(rules_node::specs::Join::leave))]
pub fn leave(n: Node, lent: u64, delete: bool) -> Turn
    ensures { result ≡ leave n lent delete }
{
    turns::settled(
        leave_allowed(n, lent),
        n,
        turns::done(left(n), leaves(delete, n), OnStaging::Zero),
    )
}

#[tactic(auto, unfolding(rules_node::specs::Join::left))]
fn left(n: Node) -> Node
    ensures { result ≡ left n }
{
    change::ended_transfer(change::went_to(n, left_to(n.store)))
}

fn left_to(store: bool) -> State
    ensures { result ≡ left_to store }
{
    if store {
        State::Registered
    } else {
        State::Empty
    }
}

fn leaves(delete: bool, n: Node) -> OnMap
    ensures { result ≡ leaves delete n }
{
    if delete { own_row(n) } else { OnMap::Keep }
}
