use crate::lettered::Lettered;
use crate::trials::{Trial, Trials};
use rings::{Field, Ring};
use std::io;

// An operation of a ring, what it is given, and what is due.
#[derive(Clone, Copy)]
pub enum Operation {
    Sum(u32, u32, u32),
    Opposite(u32, u32),
    Product(u32, u32, u32),
}

impl<R: Lettered> Trial<R> for Operation {
    fn carry_out(&self, trials: &mut Trials<'_, '_, R>) -> io::Result<()> {
        let ring = trials.ring();
        match *self {
            Operation::Sum(a, b, due) => {
                let came = ring.sum(a, b);
                trials.tell(format_args!(": {a} + {b} = {came}"), came == due)
            }
            Operation::Opposite(a, due) => {
                let came = ring.opposite(a);
                trials.tell(format_args!(": the opposite of {a} is {came}"), came == due)
            }
            Operation::Product(a, b, due) => {
                let came = ring.product(a, b);
                trials.tell(format_args!(": {a} x {b} = {came}"), came == due)
            }
        }
    }
}

// A number, and the inverse that is due.
#[derive(Clone, Copy)]
pub struct Inverse(pub u32, pub Option<u32>);

impl<F: Lettered + Field> Trial<F> for Inverse {
    fn carry_out(&self, trials: &mut Trials<'_, '_, F>) -> io::Result<()> {
        let Inverse(a, due) = *self;
        let came = trials.ring().inverse(a);
        match came {
            Some(b) => trials.tell(format_args!(": the inverse of {a} is {b}"), came == due),
            None => trials.tell(format_args!(": the inverse of {a} is absent"), came == due),
        }
    }
}
