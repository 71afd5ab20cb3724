// POOL_INFO.
ghost use Rattle.std.specs.Prelude.{◌≡◌};
ghost use Rattle.rules_base.specs.Refusals.{number_of};
ghost use Rattle.rules_node.specs.Info.{lacks, pool_info_refusal, informed, informs, pool_info};

use node_state::{change, states, turns};
use rules_base::{Op, Refusal};
use rules_node::{Node, OnMap, OnStaging, Turn};

#[tactic(auto, unfolding(rules_node::specs::Info::pool_info_refusal))]
fn pool_info_allowed(n: Node, lent: u64, op: Op, member: u64) -> Result<(), Refusal>
    ensures { number_of result ≡ pool_info_refusal n lent op member }
{
    turns::allowed(n, lent)?;
    if 15 < member {
        return Err(Refusal::BadId);
    }
    if !states::is_joined(n.state) {
        return Err(Refusal::NotAllowed);
    }
    if member == n.id || lacks(op, map_numbers::sets::has(n.members, member)) {
        return Err(Refusal::BadMembership);
    }
    Ok(())
}

// Another member came or went.
#[tactic(auto, unfolding(rules_node::specs::Info::pool_info))]
pub fn pool_info(n: Node, lent: u64, op: Op, member: u64) -> Turn
    ensures { result ≡ pool_info n lent op member }
{
    turns::settled(
        pool_info_allowed(n, lent, op, member),
        n,
        turns::done(
            informed(op, n, member),
            informs(op, member),
            OnStaging::Keep,
        ),
    )
}

// Add-assemble demands the member.
fn lacks(op: Op, member: bool) -> bool
    ensures { result ≡ lacks op member }
{
    op == Op::AddAssemble && !member
}

#[tactic(auto, unfolding(rules_node::specs::Info::informed))]
fn informed(op: Op, n: Node, member: u64) -> Node
    ensures { result ≡ informed op n member }
{
    match op {
        Op::AddCreate => change::member_entered(n, member),
        Op::RemoveDelete => change::member_dropped(n, member),
        Op::AddAssemble | Op::RemoveDisassemble => n,
    }
}

fn informs(op: Op, member: u64) -> OnMap
    ensures { result ≡ informs op member }
{
    match op {
        Op::AddCreate | Op::RemoveDelete => OnMap::ZeroRow(member),
        Op::AddAssemble | Op::RemoveDisassemble => OnMap::Keep,
    }
}
