// Kinds of commands, for judge and engine.
ghost use Rattle.std.specs.Prelude.{◌≡◌};
ghost use Rattle.rules.specs.Kinds.{is_act, is_wr, is_ref, is_data, in_act_queue, can_end, is_known, is_closing};
ghost use Rattle.rules.specs.Queues.{data_kind};

use records::command::Kind;

pub fn is_act(k: Kind) -> bool
    ensures { result ≡ is_act k }
{
    matches!(k, Kind::Act)
}

pub fn is_wr(k: Kind) -> bool
    ensures { result ≡ is_wr k }
{
    matches!(k, Kind::Wr | Kind::Wra)
}

pub fn is_ref(k: Kind) -> bool
    ensures { result ≡ is_ref k }
{
    matches!(k, Kind::Ref)
}

pub fn is_data(k: Kind) -> bool
    ensures { result ≡ is_data k }
{
    matches!(k, Kind::Rd | Kind::Rda | Kind::Wr | Kind::Wra)
}

// A command of the ACT queue: an ACT or a REF.
pub fn in_act_queue(k: Kind) -> bool
    ensures { result ≡ in_act_queue k }
{
    matches!(k, Kind::Act | Kind::Ref)
}

// A transaction's last command: a data command, or its REF.
pub fn can_end(k: Kind) -> bool
    ensures { result ≡ can_end k }
{
    matches!(k, Kind::Rd | Kind::Rda | Kind::Wr | Kind::Wra | Kind::Ref)
}

pub fn is_known(k: Kind) -> bool
    ensures { result ≡ is_known k }
{
    !matches!(k, Kind::Other(_))
}

// With auto precharge.
pub fn is_closing(k: Kind) -> bool
    ensures { result ≡ is_closing k }
{
    matches!(k, Kind::Rda | Kind::Wra)
}

// The kind of a data command: a write or not, with auto precharge or not.
pub fn data_kind(write: bool, last: bool) -> Kind
    ensures { result ≡ data_kind write last }
{
    match (write, last) {
        (false, false) => Kind::Rd,
        (false, true) => Kind::Rda,
        (true, false) => Kind::Wr,
        (true, true) => Kind::Wra,
    }
}
