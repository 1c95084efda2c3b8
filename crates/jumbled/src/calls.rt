// The calls of a jumbled list and what they answer, with the words for both.

use crate::maps::AnyMap;
use answers::{Ended, Settled};
use carriers::Refusal;
use costs::{Amounts, Cost};
use histories::Ending;
use requests::Request;
use std::fmt;
use stepping::Label;

// A call with its values, but for the memory.
#[derive(Clone, Copy)]
pub(crate) enum Call<'a> {
    Open { bounds: Cost, destination: u16 },
    Cross(AnyMap<'a>),
    Finish { map: AnyMap<'a>, source: u16 },
    Withdraw,
}

impl Call<'_> {
    // Makes the call on the request, in this memory.
    pub(crate) fn make(
        self,
        request: &mut Request<Cost>,
        memory: &mut [Label<Cost>],
    ) -> Result<Answer, Refusal> {
        match self {
            Call::Open {
                bounds,
                destination,
            } => request
                .open(bounds, destination, memory)
                .map(|()| Answer::Opened),
            Call::Cross(map) => request.cross(&map, memory).map(Answer::Crossed),
            Call::Finish { map, source } => {
                request.finish(&map, source, memory).map(Answer::Finished)
            }
            Call::Withdraw => request.withdraw(memory).map(|()| Answer::Withdrawn),
        }
    }
}

impl fmt::Display for Call<'_> {
    fn fmt<W: fmt::Write>(&self, f: &mut fmt::Formatter<W>) -> fmt::Result {
        match self {
            Call::Open {
                bounds,
                destination,
            } => {
                let bounds = Amounts(*bounds);
                write!(f, "open within {bounds} to node {destination}")
            }
            Call::Cross(map) => write!(f, "cross {map}"),
            Call::Finish { map, source } => write!(f, "finish {map} from node {source}"),
            Call::Withdraw => write!(f, "withdraw"),
        }
    }
}

// What a call answers, if it is not refused.
#[derive(Clone, Copy)]
pub(crate) enum Answer {
    Opened,
    Crossed(usize),
    Finished(Ending),
    Withdrawn,
}

impl fmt::Display for Answer {
    fn fmt<W: fmt::Write>(&self, f: &mut fmt::Formatter<W>) -> fmt::Result {
        match *self {
            Answer::Opened | Answer::Withdrawn => write!(f, "accepted"),
            Answer::Crossed(settled) => write!(f, "{}", Settled(settled)),
            Answer::Finished(ending) => write!(f, "{}", Ended(ending)),
        }
    }
}
