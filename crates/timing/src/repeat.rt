use crate::field_name::FieldName;
use crate::request::Request;
use anyhow::anyhow;
use recurrences::{Refusal, Size};
use rings::{Binary, Field, Mod101};
use runs::run::Run;
use runs::standing::Standing;

// Offers the matrices one after the other while the run is running.
fn offer_all<F: Field>(run: &mut Run<F>, size: Size, codes: &[u32]) -> Result<(), Refusal> {
    for matrix in codes.chunks(size.cells()) {
        match run.offer(matrix) {
            Err(Refusal::NotRunning) => break,
            offered => offered?,
        }
    }
    Ok(())
}

// Where the run over a field stands after the last repetition.
fn repeated<F: Field>(field: F, request: &Request) -> Result<Standing, Refusal> {
    let mut run = Run::new(field);
    for _ in 0..request.repeats {
        run.start(field, request.size, request.bound)?;
        let size = Size::try_from(request.size)?;
        offer_all(&mut run, size, request.codes.as_slice())?;
    }
    Ok(run.standing())
}

// Why a request is refused. The last of the matrices is the only one that may have a wrong length.
fn reason(refusal: Refusal) -> anyhow::Error {
    match refusal {
        Refusal::Length => anyhow!("the last matrix is not whole"),
        _ => refusal.into(),
    }
}

// Where the run stands after the last repetition of a request.
pub fn standing_after(request: &Request) -> anyhow::Result<Standing> {
    let standing = match request.field {
        FieldName::Binary => repeated(Binary, request),
        FieldName::Mod101 => repeated(Mod101, request),
    };
    standing.map_err(reason)
}
