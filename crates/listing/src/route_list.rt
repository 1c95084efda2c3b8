// The list of the routes of a chain.

ghost use Rattle.std.specs.Prelude.{Some};
ghost use Rattle.listing.specs.Texts.{list_text, row_text};
ghost use Rattle.listing.specs.Items.{items_of};

use crate::known_text::KnownText;
use histories::Item;
use std::fmt;

// The routes in order, or that there is none.
#[derive(Drop)]
pub(crate) struct RouteList<W> {
    pub routes: Option<Vec<Item<W>>>,
}

// How many routes there are, and a line for each.
impl<W: KnownText> fmt::Display for RouteList<W> {
    ghost output = { λ l. Some (list_text W.KnownText.text (items_of l)) };

    fn fmt<F: fmt::Write>(&self, f: &mut fmt::Formatter<F>) -> fmt::Result {
        let Some(routes) = &self.routes else {
            return writeln!(f, "no route");
        };
        writeln!(f, "routes {}", routes.len())?;
        for (k, route) in routes.iter().enumerate() {
            let row = Row {
                position: k + 1,
                route,
            };
            write!(f, "{row}")?;
        }
        Ok(())
    }
}

// The line of the route at a position, from 1.
#[derive(Clone, Copy)]
struct Row<'a, W> {
    position: usize,
    route: &'a Item<W>,
}

impl<W: KnownText> fmt::Display for Row<'_, W> {
    ghost output = { λ r. Some (row_text r.position (W.KnownText.text r.route.now.weight) r.route.now.key) };

    fn fmt<F: fmt::Write>(&self, f: &mut fmt::Formatter<F>) -> fmt::Result {
        writeln!(
            f,
            "{}: {} key {}",
            self.position, self.route.weight, self.route.key
        )
    }
}
