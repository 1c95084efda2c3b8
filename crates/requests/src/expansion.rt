// The hops of a key: the links that its label, the label's next and so on were settled by.

ghost use Rattle.std.specs.Prelude.{◌≡◌, suc, ◌<◌, length, Some};
ghost use Rattle.std.specs.Option.{option_map};
ghost use Rattle.stepping.specs.Labels.{meanings};
ghost use Rattle.histories.specs.Expansion.{follow};
ghost use Rattle.requests.specs.Table.{runs_of};

use crate::runs::Runs;
use histories::Hop;
use stepping::{Label, NO_LINK};
use weights::Kind;

impl Runs {
    // How many hops the key has; `None` where a label's next is not below its own key. A loop is plainer here than an
    // iterator, which would have to say at its end in which of the two ways it ended.
    pub(crate) fn hop_count<W: Kind>(&self, key: usize, memory: &[Label<W>]) -> Option<usize>
        requires { key < length memory.now }
        ensures { result ≡ option_map length (follow (runs_of self.now) (meanings W.Kind.means memory.now) (suc key) key) }
    {
        let mut at = key;
        let mut count = 0;
        loop {
            let label = memory[at];
            if label.link == NO_LINK {
                return Some(count);
            }
            if label.next >= at {
                return None;
            }
            at = label.next;
            count += 1;
        }
    }

    // Writes the hops of the key, where the slice has as many places. It goes the way of `hop_count` again, since a
    // refusal is found before the first hop is written and no hop is kept in between.
    pub(crate) fn write_hops<W: Kind>(&self, key: usize, memory: &[Label<W>], hops: &mut [Hop])
        requires { option_map length (follow (runs_of self.now) (meanings W.Kind.means memory.now) (suc key) key) ≡ Some (length hops.old) }
        ensures { follow (runs_of self.now) (meanings W.Kind.means memory.now) (suc key) key ≡ Some hops.new }
    {
        let mut at = key;
        for hop in hops.iter_mut() {
            let label = memory[at];
            *hop = Hop {
                position: self.position(at),
                link: label.link,
            };
            at = label.next;
        }
    }
}
