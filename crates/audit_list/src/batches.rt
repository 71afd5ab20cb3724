// Records gathered into batches of sixteen, and each batch lent to the auditor, so that a log of any length is audited in a fixed room.
ghost use Rattle.std.specs.Prelude.{◌≡◌};
ghost use Rattle.audit_list.specs.Batches.{begun, added, audited};

use audit_record::records::Record;
use audit_replay::auditing::Walk;

// The walk over the batches before this one, and the records of this one: the first count of them. An array with its count, as there is no heap.
#[derive(Clone, Copy)]
pub struct Batch {
    pub walk: Walk,
    pub records: [Record; 16],
    pub count: usize,
}

pub fn begin() -> Batch
    ensures { result ≡ begun }
{
    Batch {
        walk: crate::auditor::start(),
        records: [audit_record::records::no_record(); 16],
        count: 0,
    }
}

// One record more. A full batch is audited first.
#[tactic(auto, unfolding(crate::specs::Batches::added))]
pub fn add(mut b: Batch, r: Record) -> Batch
    ensures { result ≡ added b r }
{
    if 16 <= b.count {
        b.walk = close(b);
        b.count = 0;
    }
    b.records[b.count] = r;
    b.count += 1;
    b
}

// The audit of all that came.
#[tactic(auto, unfolding(crate::specs::Batches::audited), using(crate::proofs::BatchesLaws::first))]
pub fn close(b: Batch) -> Walk
    ensures { result ≡ audited b }
{
    crate::auditor::audit(b.walk, &b.records[..b.count.min(16)])
}
