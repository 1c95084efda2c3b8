// The routes of a chain in the weights of one kind.

ghost use Rattle.std.specs.Prelude.{◌≡◌, IfOk, Ok, Err, List, map, vec_items, string_bytes};
ghost use Rattle.stepping.specs.Labels.{meanings};
ghost use Rattle.stepping.specs.Memory.{blanks};
ghost use Rattle.requests.specs.Kept.{stage_of};
ghost use Rattle.requests.specs.Listed.{item_meant};
ghost use Rattle.books.specs.Told.{contents_of};
ghost use Rattle.listing.specs.Found.{items_from, chain_found, found_of};
ghost use Rattle.listing.specs.Items.{list_meant, Listed};
ghost use Rattle.listing.specs.Unlisted.{IfRefused};

use crate::journey::Journey;
use crate::known_text::KnownText;
use crate::route_list::RouteList;
use crate::unlisted::Unlisted;
use books::BookKind;
use histories::Item;
use requests::Request;
use std::alloc::{AllocError, Global};
use std::string::ToString;
use stepping::Label;
use weights::Kind;

impl<W: BookKind + KnownText> Journey<'_, W> {
    // The text of the list of the routes within the bounds.
    pub(crate) fn routes_text(&self, heap: Global) -> Result<String, Unlisted>
        ensures text { IfOk result (λ s. Listed W.KnownText.text W.Kind.means (found_of W.Kind.algebra W.Kind.means W.BookKind.reads self.now.bounds (contents_of self.now.chain.now)) (string_bytes s)) }
        ensures refused { IfRefused result (λ r. Err r ≡ found_of W.Kind.algebra W.Kind.means W.BookKind.reads self.now.bounds (contents_of self.now.chain.now)) }
    {
        let routes = self.find_routes(heap)?;
        Ok(routes.to_string(heap)?)
    }
}

impl<W: BookKind> Journey<'_, W> {
    // The routes within the bounds, found in a memory of 1,024 labels.
    fn find_routes(&self, heap: Global) -> Result<RouteList<W>, Unlisted>
        ensures found { IfOk result (λ l. Ok (list_meant W.Kind.means l) ≡ found_of W.Kind.algebra W.Kind.means W.BookKind.reads self.now.bounds (contents_of self.now.chain.now)) }
        ensures refused { IfRefused result (λ r. Err r ≡ found_of W.Kind.algebra W.Kind.means W.BookKind.reads self.now.bounds (contents_of self.now.chain.now)) }
    {
        let mut memory = blank_labels(heap, 1024)?;
        self.find_in(heap, memory.as_mut_slice())
    }

    // The routes within the bounds, found in the label memory that is lent.
    fn find_in(&self, heap: Global, memory: &mut [Label<W>]) -> Result<RouteList<W>, Unlisted>
        ensures found { IfOk result (λ l. Ok (list_meant W.Kind.means l) ≡ chain_found W.Kind.algebra W.Kind.means W.BookKind.reads self.now.bounds (contents_of self.now.chain.now) (meanings W.Kind.means memory.old)) }
        ensures refused { IfRefused result (λ r. Err r ≡ chain_found W.Kind.algebra W.Kind.means W.BookKind.reads self.now.bounds (contents_of self.now.chain.now) (meanings W.Kind.means memory.old)) }
    {
        let mut request = Request::new();
        let ending = self.make_calls(&mut request, memory)?;
        let source = self.chain.source();
        let routes = ending
            .routes
            .map(|count| items(heap, count, &request, source, memory))
            .transpose()?;
        Ok(RouteList { routes })
    }
}

// So many blank labels, each made anew: no law says that a weight's clone equals the weight.
fn blank_labels<W: Kind>(heap: Global, count: usize) -> Result<Vec<Label<W>>, AllocError>
    ensures { IfOk result (λ v. meanings W.Kind.means v.items ≡ blanks W.Kind.algebra count) }
{
    let mut labels = Vec::new(heap);
    labels.resize_with(count, || Label::blank())?;
    Ok(labels)
}

// The items of the list at the node.
fn items<W: Kind>(
    heap: Global,
    count: usize,
    request: &Request<W>,
    node: u16,
    memory: &[Label<W>],
) -> Result<Vec<Item<W>>, Unlisted>
    ensures found { IfOk result (λ v. Ok (map (item_meant W.Kind.means) (vec_items v)) ≡ items_from (stage_of W.Kind.means request.now.stage) node (meanings W.Kind.means memory.now) count 0) }
    ensures refused { IfRefused result (λ r. Err r ≡ items_from (stage_of W.Kind.means request.now.stage) node (meanings W.Kind.means memory.now) count 0) }
{
    let mut items = Vec::with_capacity(heap, count)?;
    // A position is counted, since a request is asked for one item at a time, by its position.
    for k in 0..count {
        items.push(request.item(node, k, memory)?).unwrap();
    }
    Ok(items)
}
