// What is asked of the fields of ranks.
ghost use Rattle.std.proofs.Common.{lit≤};
ghost use Rattle.orders.specs.Ranks.{rank_questions};

use crate::figures::FieldQuestions;
use crate::path_fault::PathFault;
use book::book::Book;
use book::field::Field;
use book::shape::RANK;

impl FieldQuestions for PathFault {
    const TAG: u8 = RANK;

    ghost TAG = { 4 };

    ghost asked = { rank_questions };

    ghost last = { 13 };

    fn not_first(at: usize) -> PathFault {
        PathFault::BadRank(at)
    }

    fn check(_book: &Book, _field: &Field) -> Result<(), PathFault> {
        Ok(())
    }

    fn no_figures(at: usize) -> PathFault {
        PathFault::NoRank(at)
    }

    ghost coded = { lit≤ tt };
}
