// A command, as it is asked for.
use ports::Word;

/// A command, with the names of its files.
#[derive(Clone, Copy)]
pub enum Request<'a> {
    /// Shows the T2-MI packets that stand back to back in a file.
    ShowPackets {
        file: &'a str,
    },
    /// Shows the T2-MI packets in the transport packets of a file.
    ShowT2mi {
        file: &'a str,
    },
    /// Shows the records of a file.
    ShowFrames {
        file: &'a str,
    },
    /// Shows a configuration as it is written.
    ShowConfig {
        file: &'a str,
    },
    /// Shows what follows from a configuration.
    Plan {
        config: &'a str,
    },
    /// Makes the T2-MI stream of a network: its configuration, the stream, and one transport stream for each PLP.
    Gateway {
        config: &'a str,
        out: &'a str,
        ins: &'a [Word],
    },
    /// Makes the T2-MI stream of a network with common PLPs: its configuration, the stream, and one transport stream
    /// for each PLP that is not common.
    CommonGateway {
        config: &'a str,
        out: &'a str,
        ins: &'a [Word],
    },
    /// Makes the records of the frames of a network: its configuration, its T2-MI stream, and the records.
    Modulate {
        config: &'a str,
        input: &'a str,
        out: &'a str,
    },
    /// Gives back the packets of the PLP with an identifier: the configuration of the network, the records of its
    /// frames, and the transport stream.
    Receive {
        config: &'a str,
        plp_id: u8,
        input: &'a str,
        out: &'a str,
    },
    /// Gives back the packets of the PLP with an identifier, and what goes in the common PLP of its group: the
    /// configuration of the network, the records of its frames, and the transport stream.
    CommonReceive {
        config: &'a str,
        plp_id: u8,
        input: &'a str,
        out: &'a str,
    },
    /// Makes one T2-MI stream of two of a network: its configuration, both streams, which may be one file, and the
    /// stream.
    Merge {
        config: &'a str,
        a: &'a str,
        b: &'a str,
        out: &'a str,
    },
    /// Makes one T2-MI stream of one or more of a network: its configuration, the stream, and the feeds, of which two
    /// may be one file.
    Mend {
        config: &'a str,
        out: &'a str,
        ins: &'a [Word],
    },
    /// Replaces the packets of the PLP with an identifier: the configuration of the network, its T2-MI stream and the
    /// transport stream of the region, which may be one file, and the stream that is made of them.
    Swap {
        config: &'a str,
        plp_id: u8,
        t2mi: &'a str,
        input: &'a str,
        out: &'a str,
    },
    /// Compares two T2-MI streams of a network: its configuration, and both streams, which may be one file.
    Compare {
        config: &'a str,
        a: &'a str,
        b: &'a str,
    },
    /// Tries a whole network, for so many frames, with inputs that are drawn from a number.
    Trial {
        seed: u64,
        frames: u32,
    },
}
