//! The board, its pen, and the passes that it deals.
ghost use Rattle.std.specs.Prelude.{◌≡◌, ◌<◌, ◌^◌};
ghost use Rattle.lz_list.specs.Addresses.{words_count};
ghost use Rattle.lz_board.specs.Walkers.{IsWalkable};

use crate::pass::Pass;
use crate::rule::{Hand, Published};
use crate::view::{Note, Opening, View};
use atomic_table::{Seat, Table};
use lz_list::{Sizes, Words};
use std::alloc::{AllocError, Global};
use std::snapshot::Snapshot;

/// The words that walkers load.
#[derive(Drop)]
pub struct Board {
    pub(crate) table: Table<Note, View, Opening, Published, Global>,
    pub(crate) sizes: Sizes,
    pub ghost room: { (table.shared.table_id.words ≡ words_count table.shared.key.sizes) × (sizes ≡ table.shared.key.sizes) × (words_count sizes < 2 ^ 32) },
    pub ghost walkable: { IsWalkable table.shared.key.sizes },
}

/// The one seat that stores head, link, key and halt words.
#[derive(Drop)]
pub struct Pen {
    pub(crate) seat: Seat<Note, View>,
}

impl Board {
    ghost use Rattle.std.specs.Prelude.{◌≡◌, ◌+◌, ◌<◌, ◌≤◌, ◌^◌, [], IfOk, IfSome, All, length, map};
    ghost use Rattle.lz_list.specs.Addresses.{words_count};
    ghost use Rattle.lz_list.specs.Addresses.{sizes_in};
    ghost use Rattle.lz_board.specs.Opened.{opened_by, AreOpened};
    ghost use Rattle.lz_board.specs.Plays.{fresh, parts_from};
    ghost use Rattle.lz_board.specs.Seats.{id_of, part, IsOf, IsNew, notes, IsPenOf, HasParts};

    /// The board of these words, its pen, and a pass for each pin word. `None` only when out of memory.
    pub fn new(alloc: Global, words: &Words) -> Option<(Board, Pen, Vec<Pass>)>
        requires room { words_count (sizes_in words.now) < 2 ^ 32 }
        requires opened { AreOpened words.now }
        ensures board { IfSome result (λ r. ((id_of r.0).sizes ≡ sizes_in words.now) × ((id_of r.0).opened ≡ opened_by words.now)) }
        ensures pen { IfSome result (λ r. IsPenOf (id_of r.0) r.1 × (notes r.1 ≡ [])) }
        ensures passes { IfSome result (λ r. (length r.2.items ≡ length words.now.pins) × All (λ p. IsNew (id_of r.0) p) r.2.items × (map (λ p. part p) r.2.items ≡ parts_from (id_of r.0).sizes (id_of r.0).opened (length words.now.pins) 1)) }
    {
        let sizes = words.sizes();
        let opening = Opening {
            sizes,
            words: Snapshot::of(words),
        };
        let Ok((table, seat)) = Table::of_words(alloc, words.row(), &opening) else {
            return None;
        };
        let board = Board { table, sizes };
        let mut pen = Pen { seat };
        match board.deal_all(alloc, &mut pen) {
            Ok(all) => Some((board, pen, all)),
            Err(_) => None,
        }
    }

    // A pass of each number.
    fn deal_all(&self, alloc: Global, pen: &mut Pen) -> Result<Vec<Pass>, AllocError>
        requires { HasParts (id_of self.now) 1 pen.old }
        ensures pen { IfOk result (λ _. IsPenOf (id_of self.now) pen.new × (notes pen.new ≡ [])) }
        ensures passes { IfOk result (λ all. (length all.items ≡ (id_of self.now).sizes.passes) × All (λ p. IsNew (id_of self.now) p) all.items × (map (λ p. part p) all.items ≡ parts_from (id_of self.now).sizes (id_of self.now).opened (id_of self.now).sizes.passes 1)) }
    {
        let mut all = Vec::new(alloc);
        for number in 1..self.sizes.passes + 1 {
            let pass = self.deal(pen, number);
            all.push(pass)?;
        }
        Ok(all)
    }

    // The pass of this number, whose part the pen holds.
    fn deal(&self, pen: &mut Pen, number: usize) -> Pass
        requires number { (1 ≤ number) × (number ≤ (id_of self.now).sizes.passes) }
        requires pen { HasParts (id_of self.now) number pen.old }
        ensures pen { HasParts (id_of self.now) (number + 1) pen.new }
        ensures here { IsOf (id_of self.now) result }
        ensures number { result.number ≡ number }
        ensures part { part result ≡ fresh (id_of self.now).sizes (id_of self.now).opened number }
    {
        let seat = self.table.shared.split_seat::<Hand>(&mut pen.seat);
        Pass {
            badge: seat.into_badge(),
            number,
            pin: 0,
        }
    }
}
