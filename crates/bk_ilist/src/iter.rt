//! A walk over a list.

ghost use Rattle.std.specs.Prelude.{◌≡◌};
ghost use Rattle.std.specs.Iterator.{YieldsFirstBy, item_count};

use crate::node::{Node, node_item, node_next};
use std::marker::Model;

/// The items of a list in order, each with its id. Contracts see those that are left.
#[derive(Drop)]
pub struct Iter<'a, T> {
    pub(crate) nodes: &'a [Node<T>],
    /// The id of the next item.
    pub(crate) at: Option<u32>,
}

impl<'a, T> Model for Iter<'a, T> {
    ghost use Rattle.std.specs.Prelude.{ℕ, List};
    ghost use Rattle.std.specs.Coded.{coded_list, coded×, coded_ℕ};

    ghost Value = { List (ℕ × T) };

    ghost coded = { coded_list (coded× coded_ℕ T.code) };

    ghost use Rattle.bk_ilist.specs.model.Chain.{pairs_from, IsTail};

    ghost view = { λ it. pairs_from it.nodes.now it.at };

    ghost invariant = { λ it. IsTail it.nodes.now it.at (pairs_from it.nodes.now it.at) };
}

impl<'a, T> Iterator for Iter<'a, T> {
    type Item = (u32, &'a T);

    ghost next_gives = { YieldsFirstBy (λ item. (item.0, item.1.now)) (λ rest. rest) };

    ghost remaining = { item_count (λ rest. rest) };

    fn next(&mut self) -> Option<(u32, &'a T)> {
        match self.at {
            None => None,
            Some(id) => {
                let nodes = self.nodes;
                self.at = node_next(nodes, id);
                Some((id, node_item(nodes, id)))
            }
        }
    }
}
