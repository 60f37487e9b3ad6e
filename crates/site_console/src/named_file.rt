// Which file an outcome speaks of, and which one is made.
use plp_config::MOST_FRAMES;
use site_top::{Outcome, Request};

// The configuration of a request, or the one file that it has.
fn first_of(request: Request<'_>) -> &str {
    match request {
        Request::Gateway { config, .. }
        | Request::CommonGateway { config, .. }
        | Request::Modulate { config, .. }
        | Request::Receive { config, .. }
        | Request::CommonReceive { config, .. }
        | Request::Merge { config, .. }
        | Request::Mend { config, .. }
        | Request::Swap { config, .. }
        | Request::Compare { config, .. }
        | Request::Plan { config } => config,
        Request::ShowPackets { file }
        | Request::ShowT2mi { file }
        | Request::ShowFrames { file }
        | Request::ShowConfig { file } => file,
        Request::Trial { .. } => "",
    }
}

/// The file that a request makes, if it makes one.
pub fn out_of(request: Option<Request<'_>>) -> Option<&str> {
    match request? {
        Request::Gateway { out, .. }
        | Request::CommonGateway { out, .. }
        | Request::Modulate { out, .. }
        | Request::Receive { out, .. }
        | Request::CommonReceive { out, .. }
        | Request::Merge { out, .. }
        | Request::Mend { out, .. }
        | Request::Swap { out, .. } => Some(out),
        _ => None,
    }
}

// The stream that an outcome of a request speaks of, if it speaks of one.
fn stream_of(request: Request<'_>, outcome: Outcome) -> Option<&str> {
    match (request, outcome) {
        (
            Request::Gateway { ins, .. } | Request::CommonGateway { ins, .. },
            Outcome::InputRefused { input, .. },
        ) => Some(
            ins.get(usize::from(input))
                .map_or("an IN", |word| word.as_str()),
        ),
        (
            Request::Gateway { .. } | Request::CommonGateway { .. } | Request::Mend { .. },
            Outcome::TooLong { .. },
        ) => Some("an IN"),
        (Request::Modulate { input, .. }, Outcome::TooLong { .. } | Outcome::NoSuperframe) => {
            Some(input)
        }
        (
            Request::Receive { input, .. } | Request::CommonReceive { input, .. },
            Outcome::TooLong { .. } | Outcome::RecordRefused { .. },
        ) => Some(input),
        (Request::Merge { .. } | Request::Compare { .. }, Outcome::TooLong { .. }) => Some(
            "A or B",
        ),
        (Request::Swap { input, .. }, Outcome::InputRefused { .. }) => Some(input),
        (
            Request::Swap { t2mi, .. },
            Outcome::NoSuperframe | Outcome::TooLong { count: MOST_FRAMES },
        ) => Some(t2mi),
        (Request::Swap { .. }, Outcome::TooLong { .. }) => Some("T2MI or IN"),
        _ => None,
    }
}

/// The file that an outcome of a request speaks of.
pub fn file_of(request: Option<Request<'_>>, outcome: Outcome) -> &str {
    let Some(request) = request else {
        return "";
    };
    stream_of(request, outcome).unwrap_or(first_of(request))
}
