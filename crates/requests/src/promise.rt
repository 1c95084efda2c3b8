// The promise over every history of calls.

ghost use Rattle.requests.specs.Promised.{KeptStage, KeptWhenFinished, KeptWhenOpen, KeptWhenRefused};

use weights::Kind;

// For every kind of weight, and every list of opens, crosses, finishes and withdrawals on a new request, refused ones
// too, over maps of any sorts: what the calls leave and answer, as their contracts say it, keeps the whole promise. The
// stage is the one that calls and answers tell; the promise holds of a finished request at its source, and of an open
// one at each entry node of the last carrier crossed; and a refused call, handed the request's own labels, leaves the
// request and its labels as they were.
pub fn promise_stands<W: Kind>()
    ensures stage { KeptStage W.Kind.algebra W.Kind.means }
    ensures finished { KeptWhenFinished W.Kind.algebra W.Kind.means }
    ensures open_so_far { KeptWhenOpen W.Kind.algebra W.Kind.means }
    ensures refused { KeptWhenRefused W.Kind.algebra W.Kind.means }
{}
