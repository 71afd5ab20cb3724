// An event of a log taken by a pool, through the client's own functions. No map is lent: no logged event's outcome hangs on its bytes, so it is handed in as sound.
ghost use Rattle.std.specs.Prelude.{◌≡◌};
ghost use Rattle.audit_replay.specs.Replay.{taken};

use audit_record::records::Logged;
use rules_pool::{Pool, Turn};

pub fn take(p: Pool, e: Logged) -> Turn
    ensures { result ≡ taken e p }
{
    match e {
        Logged::JoinCreate(id) => client_join::joins::join_create(p, id),
        Logged::JoinAssemble(id, set, version) => client_join::joins::join_assemble(
            p, id, set, version,
        ),
        Logged::Enable(id) => client_join::enables::enable(p, id),
        Logged::Maintenance(id) => client_join::enables::maintenance(p, id),
        Logged::LinkDown(id) => client_link::links::link_down(p, id),
        Logged::StoreCheck(id) => client_link::links::store_check(p, id),
        Logged::Remove(id, m) => client_remove::removal::remove::remove(p, true, id, m),
        Logged::Write(chunk, reached) => client_link::writes::write_ended(p, true, chunk, reached),
        Logged::Try => client_link::links::try_run(p),
        Logged::Answer(a) => client_remove::answers::answer(p, true, u64::from(p.number), a),
        Logged::Rejoin(id) => client_link::links::rejoin(p, id),
        Logged::Extend => client_join::extending::extend(p, true),
    }
}
