// The command, 8 bytes. Crate `commands` reads and writes it.
ghost use Rattle.std.specs.Prelude.{◌≡◌};
ghost use Rattle.records.specs.Command.{kind_of, kind_number};

// 0 ACT, 1 RD, 2 RDA, 3 WR, 4 WRA, 5 REF. Any 8 bytes are a readable command, so every other number is a kind too.
#[derive(Clone, Copy, Debug, PartialEq, Eq)]
pub enum Kind {
    Act,
    Rd,
    Rda,
    Wr,
    Wra,
    Ref,
    Other(u8),
}

impl From<u8> for Kind {
    ghost from_gives = { λ n k. k ≡ kind_of n };

    fn from(n: u8) -> Kind {
        match n {
            0 => Kind::Act,
            1 => Kind::Rd,
            2 => Kind::Rda,
            3 => Kind::Wr,
            4 => Kind::Wra,
            5 => Kind::Ref,
            n => Kind::Other(n),
        }
    }
}

impl From<Kind> for u8 {
    ghost from_gives = { λ k n. n ≡ kind_number k };

    fn from(k: Kind) -> u8 {
        match k {
            Kind::Act => 0,
            Kind::Rd => 1,
            Kind::Rda => 2,
            Kind::Wr => 3,
            Kind::Wra => 4,
            Kind::Ref => 5,
            Kind::Other(n) => n,
        }
    }
}

#[derive(Clone, Copy, Debug, PartialEq, Eq)]
pub struct Command {
    pub cycle: u32,
    pub kind: Kind,
    pub bank: u8,
    // The transaction's number.
    pub number: u16,
}
