// A journey along the books of a chain, and its calls, each behind a fence at the bounds.

ghost use Rattle.std.specs.Prelude.{◌≡◌};
ghost use Rattle.stepping.specs.Labels.{meanings};
ghost use Rattle.requests.specs.Kept.{stage_of, did};
ghost use Rattle.books.specs.Told.{contents_of};
ghost use Rattle.listing.specs.Calls.{behind, along, calls};

use books::{BookKind, Chain};
use carriers::{Fence, Refusal};
use histories::Ending;
use requests::Request;
use stepping::Label;
use weights::Kind;

// The chain, and the bounds within which its routes are asked for.
#[derive(Clone, Copy)]
pub(crate) struct Journey<'a, W> {
    pub bounds: W,
    pub chain: &'a Chain<'a>,
}

impl<W: BookKind> Journey<'_, W> {
    // All the calls but those of item.
    pub(crate) fn make_calls(
        &self,
        request: &mut Request<W>,
        memory: &mut [Label<W>],
    ) -> Result<Ending, Refusal>
        ensures { did W.Kind.means request.new.stage memory.new result ≡ calls W.Kind.algebra (behind W.Kind.algebra W.Kind.means W.BookKind.reads self.now.bounds) (W.Kind.means self.now.bounds) (contents_of self.now.chain.now) (stage_of W.Kind.means request.old.stage) (meanings W.Kind.means memory.old) }
    {
        request.open(self.bounds, self.chain.destination(), memory)?;
        self.travel(request, memory)
    }

    // A cross for each carrier but the last, and a finish with the last.
    fn travel(&self, request: &mut Request<W>, memory: &mut [Label<W>]) -> Result<Ending, Refusal>
        ensures { did W.Kind.means request.new.stage memory.new result ≡ along W.Kind.algebra (behind W.Kind.algebra W.Kind.means W.BookKind.reads self.now.bounds) (contents_of self.now.chain.now).source (contents_of self.now.chain.now).books (stage_of W.Kind.means request.old.stage) (meanings W.Kind.means memory.old) }
    {
        let mut books = self.chain.books();
        let mut book = books.next().ok_or(Refusal::Chain)?;
        for next in books {
            let map = Fence {
                map: book,
                limit: self.bounds,
            };
            request.cross(&map, memory)?;
            book = next;
        }
        let map = Fence {
            map: book,
            limit: self.bounds,
        };
        request.finish(&map, self.chain.source(), memory)
    }
}
