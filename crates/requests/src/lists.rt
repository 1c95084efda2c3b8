// The list at a node: the marked labels of the latest run there, in order.

ghost use Rattle.std.specs.Prelude.{◌≡◌, ◌==◌, ◌&&◌, ◌+◌, ◌^◌, ◌<◌, length};
ghost use Rattle.std.specs.Option.{option_map};
ghost use Rattle.std.specs.List.{slice_get};
ghost use Rattle.stepping.specs.Labels.{meanings};
ghost use Rattle.histories.specs.Lists.{items};
ghost use Rattle.requests.specs.Listed.{item_meant};

use crate::stages::Progress;
use histories::Item;
use stepping::{Keyed, Label};
use weights::Kind;

// The labels of a run, which are asked for those that are listed at a node.
#[derive(Drop)]
pub(crate) struct RunLabels<'a, W>(Keyed<'a, W>);

// Whether the label is listed at the node.
fn is_listed<W: Kind>(label: &Label<W>, node: u16) -> bool
    ensures { result ≡ (label.now.node == node && label.now.mark) }
{
    label.node == node && label.mark
}

// The k-th of the labels that are listed at the node; the first label has the key `first_key`. A loop by hand: `filter`
// and `nth` over labels with their keys took twice the time.
fn item_at<W: Kind>(labels: &[Label<W>], first_key: usize, node: u16, k: usize) -> Option<Item<W>>
    requires { first_key + length labels.now < 2 ^ 64 }
    ensures { option_map (item_meant W.Kind.means) result ≡ slice_get (items node first_key (meanings W.Kind.means labels.now)) k }
{
    let mut left = k;
    for i in 0..labels.len() {
        let label = labels[i];
        if is_listed(&label, node) {
            if left == 0 {
                return Some(Item {
                    weight: label.weight,
                    key: first_key + i,
                });
            }
            left -= 1;
        }
    }
    None
}

impl<'a, W: Kind> RunLabels<'a, W> {
    // How many of the labels are listed at the node.
    pub(crate) fn count(&self, node: u16) -> usize
        ensures { result ≡ length (items node self.now.0.first_key (meanings W.Kind.means self.now.0.labels.now)) }
    {
        self.0
            .labels
            .iter()
            .filter(|label| is_listed(label, node))
            .count()
    }

    // The k-th of the labels that are listed at the node.
    pub(crate) fn item(&self, node: u16, k: usize) -> Option<Item<W>>
        ensures { option_map (item_meant W.Kind.means) result ≡ slice_get (items node self.now.0.first_key (meanings W.Kind.means self.now.0.labels.now)) k }
    {
        item_at(self.0.labels, self.0.first_key, node, k)
    }
}

impl<W: Kind> Progress<W> {
    ghost use Rattle.std.specs.Prelude.{ℕ};
    ghost use Rattle.histories.specs.Lists.{listed};
    ghost use Rattle.requests.specs.Kept.{progress_of};

    // The labels of the latest run.
    pub(crate) fn latest_labels<'a>(&self, memory: &'a [Label<W>]) -> RunLabels<'a, W>
        requires { length memory.now ≡ self.now.runs.memory }
        ensures { (node : ℕ) → items node result.0.first_key (meanings W.Kind.means result.0.labels.now) ≡ listed (progress_of W.Kind.means self.now) node (meanings W.Kind.means memory.now) }
    {
        let run = self.runs.latest_or_empty();
        RunLabels(Keyed {
            labels: &memory[run.start..run.start + run.length],
            first_key: run.start,
        })
    }
}
