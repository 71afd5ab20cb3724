// The words of a history, by their names.
ghost use Rattle.std.specs.Prelude.{◌≡◌, map};
ghost use Rattle.text_words.specs.Names.{named, name_of};

#[derive(Clone, Copy, PartialEq, Eq)]
pub enum Name {
    Pool,
    Auto,
    JoinCreate,
    JoinAssemble,
    Enable,
    Maintenance,
    LinkDown,
    StoreCheck,
    Try,
    Remove,
    Write,
    Synced,
    Answer,
    Node,
    Deliver,
    Poke,
    RegisterCreate,
    RegisterAdd,
    Unregister,
    Leave,
    Enable1,
    Enable0,
    Fault,
    MapReady,
    GivePart,
    Take,
    MapDone,
    MapDisable,
    MapGetVer,
    LastIo,
    PoolInfo,
    Client,
    Row,
    Staging,
    Byte,
    StagingByte,
    Lend,
    LendStaging,
    PokeNode,
    Session,
    Version,
    Count,
    Chunks,
    Members,
    TakePart,
    Cut,
    PokeGot,
    Look,
    Written,
    Assembled,
    Rejoin,
    Fill,
    Extend,
    Tick,
    CheckAnswer,
    MapCheck,
    DeliverCheck,
    Due,
    Once,
    Record,
    Next,
    Summary,
}

const WORDS: [(&[u8], Name); 62] = [
    (b"pool", Name::Pool),
    (b"auto", Name::Auto),
    (b"join_create", Name::JoinCreate),
    (b"join_assemble", Name::JoinAssemble),
    (b"enable", Name::Enable),
    (b"maintenance", Name::Maintenance),
    (b"link_down", Name::LinkDown),
    (b"store_check", Name::StoreCheck),
    (b"try", Name::Try),
    (b"remove", Name::Remove),
    (b"write", Name::Write),
    (b"synced", Name::Synced),
    (b"answer", Name::Answer),
    (b"node", Name::Node),
    (b"deliver", Name::Deliver),
    (b"poke", Name::Poke),
    (b"register_create", Name::RegisterCreate),
    (b"register_add", Name::RegisterAdd),
    (b"unregister", Name::Unregister),
    (b"leave", Name::Leave),
    (b"enable1", Name::Enable1),
    (b"enable0", Name::Enable0),
    (b"fault", Name::Fault),
    (b"map_ready", Name::MapReady),
    (b"give_part", Name::GivePart),
    (b"take", Name::Take),
    (b"map_done", Name::MapDone),
    (b"map_disable", Name::MapDisable),
    (b"map_get_ver", Name::MapGetVer),
    (b"last_io", Name::LastIo),
    (b"pool_info", Name::PoolInfo),
    (b"client", Name::Client),
    (b"row", Name::Row),
    (b"staging", Name::Staging),
    (b"byte", Name::Byte),
    (b"staging_byte", Name::StagingByte),
    (b"lend", Name::Lend),
    (b"lend_staging", Name::LendStaging),
    (b"poke_node", Name::PokeNode),
    (b"session", Name::Session),
    (b"version", Name::Version),
    (b"count", Name::Count),
    (b"chunks", Name::Chunks),
    (b"members", Name::Members),
    (b"take_part", Name::TakePart),
    (b"cut", Name::Cut),
    (b"poke_got", Name::PokeGot),
    (b"look", Name::Look),
    (b"written", Name::Written),
    (b"assembled", Name::Assembled),
    (b"rejoin", Name::Rejoin),
    (b"fill", Name::Fill),
    (b"extend", Name::Extend),
    (b"tick", Name::Tick),
    (b"check_answer", Name::CheckAnswer),
    (b"map_check", Name::MapCheck),
    (b"deliver_check", Name::DeliverCheck),
    (b"due", Name::Due),
    (b"once", Name::Once),
    (b"record", Name::Record),
    (b"next", Name::Next),
    (b"summary", Name::Summary),
];

// The name of the first word of the table that is s. By same, which says more than == of two slices in a loop: tried with ==, and the proof did not close.
fn find(table: &[(&[u8], Name)], s: &[u8]) -> Option<Name>
    ensures { result ≡ named (map (λ k. (k.0.now, k.1)) table.now) s.now }
{
    for (word, name) in table {
        if text_bytes::same(s, word) {
            return Some(*name);
        }
    }
    None
}

// The name of a word, none for any other bytes.
#[tactic(auto, unfolding(crate::specs::Names::name_of))]
pub fn name_of(s: &[u8]) -> Option<Name>
    ensures { result ≡ name_of s.now }
{
    find(&WORDS, s)
}
