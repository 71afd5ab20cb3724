// The auditor: a lent list of log records is walked once, each record handed to `auditing::turn`, a step on values.
ghost use Rattle.std.specs.Prelude.{◌≡◌};
ghost use Rattle.audit_replay.specs.Audit.{walked};
ghost use Rattle.audit_list.specs.Start.{started};

use audit_record::records::Record;
use audit_replay::auditing::Walk;
use client::Client;

// Nothing is looked at yet: a fresh non-sync pool of 4,096 chunks.
pub fn start() -> Walk
    ensures { result ≡ started }
{
    Walk {
        place: 0,
        pool: Ok(Client::fresh(false, Client::CHUNK_LIMIT).pool),
    }
}

// Goes on from a walk over the records that follow: a log may be handed over whole or in parts.
pub fn audit(mut w: Walk, log: &[Record]) -> Walk
    ensures { result ≡ walked w log.now }
{
    for r in log {
        w = audit_replay::auditing::turn(w, *r);
    }
    w
}
