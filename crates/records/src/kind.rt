// The kinds of a plan's records, each with the byte that its records begin with.
ghost use Rattle.std.specs.Prelude.{◌≡◌, ◌≤◌, ◌<◌};
ghost use Rattle.records.specs.Kinds.{length_of, stage_of_kind};
ghost use Rattle.records.specs.KindBytes.{byte_of, Decodes};

use crate::decode::{
    DESTINATION_BYTES, DESTINATION_KIND, DESTINATION_STAGE, HEAD_BYTES, HEAD_STAGE, NODE_BYTES,
    NODE_STAGE, RX_FIELDS, RX_STAGE, SIGNAL_BYTES, SIGNAL_KIND, SIGNAL_STAGE, TX_FIELDS, TX_STAGE,
};
use crate::record::Fault;

#[derive(Clone, Copy, Debug, PartialEq, Eq)]
pub enum Kind {
    Head,
    Node,
    Tx,
    Rx,
    Signal,
    Destination,
    // frames with a four-byte ID
    ExtendedTx,
    ExtendedRx,
}

impl TryFrom<u8> for Kind {
    type Error = Fault;

    ghost try_from_gives = { Decodes };

    fn try_from(byte: u8) -> Result<Kind, Fault> {
        match byte {
            1 => Ok(Kind::Head),
            2 => Ok(Kind::Node),
            3 => Ok(Kind::Tx),
            4 => Ok(Kind::Rx),
            SIGNAL_KIND => Ok(Kind::Signal),
            DESTINATION_KIND => Ok(Kind::Destination),
            7 => Ok(Kind::ExtendedTx),
            8 => Ok(Kind::ExtendedRx),
            _ => Err(Fault::BadKind),
        }
    }
}

impl Kind {
    // How many bytes a record of this kind has, its kind byte among them.
    #[tactic(auto, unfolding(crate::specs::Kinds::length_of, crate::specs::Kinds::form_of, base::specs::Pick::pick))]
    pub fn length(self) -> usize
        ensures value { result ≡ length_of (byte_of self) }
        ensures some { 0 < result }
        ensures most { result ≤ 19 }
    {
        match self {
            Kind::Head => HEAD_BYTES,
            Kind::Node => NODE_BYTES,
            Kind::Tx => 4 + TX_FIELDS,
            Kind::Rx => 4 + RX_FIELDS,
            Kind::Signal => SIGNAL_BYTES,
            Kind::Destination => DESTINATION_BYTES,
            Kind::ExtendedTx => 6 + TX_FIELDS,
            Kind::ExtendedRx => 6 + RX_FIELDS,
        }
    }

    // The stage of a plan that its records belong to.
    #[tactic(auto, unfolding(crate::specs::Kinds::stage_of_kind, crate::specs::Kinds::form_of, base::specs::Pick::pick))]
    pub fn stage(self) -> u8
        ensures { result ≡ stage_of_kind (byte_of self) }
    {
        match self {
            Kind::Head => HEAD_STAGE,
            Kind::Node => NODE_STAGE,
            Kind::Tx | Kind::ExtendedTx => TX_STAGE,
            Kind::Rx | Kind::ExtendedRx => RX_STAGE,
            Kind::Signal => SIGNAL_STAGE,
            Kind::Destination => DESTINATION_STAGE,
        }
    }
}
