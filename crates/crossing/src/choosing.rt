// The choice of the label that is settled next: the first of the candidates that count.

ghost use Rattle.std.specs.Prelude.{◌≡◌, fold};
ghost use Rattle.std.specs.Option.{option_map};
ghost use Rattle.stepping.specs.Labels.{meant, meanings};
ghost use Rattle.stepping.specs.Crossing.{covers, lower, precedes};
ghost use Rattle.crossing.specs.Offers.{offer_meant, counted, chosen, meets, offered, offers, offers_of};

use carriers::Side;
use stepping::{Keyed, Label};
use weights::Kind;

// Whether some label of the run at the node is as good as the weight.
fn is_covered<W: Kind>(run: &[Label<W>], node: u16, weight: W) -> bool
    ensures { result ≡ covers W.Kind.algebra (meanings W.Kind.means run.now) node (W.Kind.means weight) }
{
    run.iter()
        .any(|label| label.node == node && label.weight.as_good(weight))
}

fn is_lower<W: Kind>(a: Label<W>, b: Label<W>) -> bool
    ensures { result ≡ lower (meant W.Kind.means a) (meant W.Kind.means b) }
{
    (a.node, a.link, a.next) < (b.node, b.link, b.next)
}

// Whether `a` is settled before `b`: by weight, then by node, link and next.
fn is_first<W: Kind>(a: Label<W>, b: Label<W>) -> bool
    ensures { result ≡ precedes W.Kind.algebra (meant W.Kind.means a) (meant W.Kind.means b) }
{
    a.weight.before(b.weight) || (!b.weight.before(a.weight) && is_lower(a, b))
}

// What one link makes of the labels that it meets at its head.
#[derive(Clone, Copy)]
pub(crate) struct Offer<W> {
    pub(crate) place: u16,
    pub(crate) tail: u16,
    pub(crate) side: Side,
    pub(crate) head: u16,
    pub(crate) weight: W,
    // Whether the labels that it makes are marked.
    pub(crate) mark: bool,
}

impl<W: Kind> Offer<W> {
    // Whether it meets the label. Onward links lead onto marked labels only.
    fn meets(&self, label: &Label<W>) -> bool
        ensures { result ≡ meets (offer_meant W.Kind.means self.now) (meant W.Kind.means label.now) }
    {
        label.node == self.head && (self.side == Side::Inside || label.mark)
    }

    // The label that it makes of the label with this key.
    fn made(&self, key: usize, label: &Label<W>) -> Label<W>
        ensures { meant W.Kind.means result ≡ offered W.Kind.algebra (offer_meant W.Kind.means self.now) key (meant W.Kind.means label.now) }
    {
        Label {
            node: self.tail,
            weight: self.weight.join(label.weight),
            link: self.place,
            next: key,
            mark: self.mark,
        }
    }
}

// What the next label is chosen by: the bounds, the run so far, and the run before.
#[derive(Drop)]
pub(crate) struct Choice<'r, 'b, W> {
    pub(crate) bounds: W,
    pub(crate) run: Keyed<'r, W>,
    pub(crate) before: &'b Keyed<'b, W>,
}

impl<W: Kind> Choice<'_, '_, W> {
    // Whether the candidate is within the bounds, and no label of the run at its node is as good.
    fn counts(&self, candidate: Label<W>) -> bool
        ensures { result ≡ counted W.Kind.algebra (W.Kind.means self.now.bounds) (meanings W.Kind.means self.now.run.labels.now) (meant W.Kind.means candidate) }
    {
        candidate.weight.as_good(self.bounds)
            && !is_covered(self.run.labels, candidate.node, candidate.weight)
    }

    // The first of the best so far and the candidate, if that counts. Whether it counts is asked last: it costs most.
    fn better(&self, best: Option<Label<W>>, candidate: Label<W>) -> Option<Label<W>>
        ensures { option_map (meant W.Kind.means) result ≡ chosen W.Kind.algebra (W.Kind.means self.now.bounds) (meanings W.Kind.means self.now.run.labels.now) (option_map (meant W.Kind.means) best) (meant W.Kind.means candidate) }
    {
        if best.is_none_or(|held| is_first(candidate, held)) && self.counts(candidate) {
            Some(candidate)
        } else {
            best
        }
    }

    // The first of the best so far and of what the link makes of `met`.
    #[tactic(auto, using(crate::proofs::Steps::offers_more, crate::proofs::Steps::offers_none))]
    fn best_of_labels(
        &self,
        best: Option<Label<W>>,
        offer: &Offer<W>,
        met: &Keyed<W>,
    ) -> Option<Label<W>>
        ensures { option_map (meant W.Kind.means) result ≡ fold (chosen W.Kind.algebra (W.Kind.means self.now.bounds) (meanings W.Kind.means self.now.run.labels.now)) (option_map (meant W.Kind.means) best) (offers W.Kind.algebra (offer_meant W.Kind.means offer.now) met.now.first_key (meanings W.Kind.means met.now.labels.now)) }
    {
        let mut best = best;
        for (i, label) in met.labels.iter().enumerate() {
            if offer.meets(label) {
                best = self.better(best, offer.made(met.first_key + i, label));
            }
        }
        best
    }

    // The first of the best so far and of the candidates of the link.
    pub(crate) fn best_of_link(&self, best: Option<Label<W>>, offer: &Offer<W>) -> Option<Label<W>>
        ensures { option_map (meant W.Kind.means) result ≡ fold (chosen W.Kind.algebra (W.Kind.means self.now.bounds) (meanings W.Kind.means self.now.run.labels.now)) (option_map (meant W.Kind.means) best) (offers_of W.Kind.algebra (offer_meant W.Kind.means offer.now) offer.now.side self.now.run.first_key (meanings W.Kind.means self.now.run.labels.now) self.now.before.now.first_key (meanings W.Kind.means self.now.before.now.labels.now)) }
    {
        match offer.side {
            Side::Inside => self.best_of_labels(best, offer, &self.run),
            Side::Onward => self.best_of_labels(best, offer, self.before),
        }
    }
}
