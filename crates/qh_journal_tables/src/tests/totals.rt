//! Totals of two ranges, worked out by hand.
ghost use Rattle.std.specs.Prelude.{◌≡◌, ◌<◌};
ghost use Rattle.qh_plan.specs.Jobs.{ranges};

use qh_job_text::read_job_text;
use qh_limits::COEFFICIENT_BITS;
use qh_plan::{Job, Sums, Verdict};
use qh_ring::{Omega, within};
use qh_slots::RunningTotal;
use std::alloc::Global;
use std::process::Abort;
use std::test::Fail;

/// A job of two bitstrings with two ranges of two paths each: 0 and 1, 2 and 3.
const TWO: &[u8] =
    b"job 1\npart 0\nsplit 1 0\nprefix all\nbits 2\n00\n11\ngates 5\n2\n0 h 0\n0 h 1\n1 cz 0 1\n2 h 0\n3 cz 0 1\n";

/// What a range gives the two bitstrings, or the path that is over there.
type Given = Result<(i128, i128), u64>;

fn number(b: i128) -> Omega {
    Omega {
        a: 0,
        b,
        c: 0,
        d: -1,
    }
}

fn verdict_of(rt: &impl Abort, alloc: Global, given: Given) -> Result<Verdict, Fail> {
    let (first, second) = match given {
        Ok(numbers) => numbers,
        Err(path) => return Ok(Verdict::Over { path }),
    };
    let (first, second) = (number(first), number(second));
    assert!(rt; within(&first, COEFFICIENT_BITS));
    assert!(rt; within(&second, COEFFICIENT_BITS));
    let sums = Vec::from_array(alloc, [first, second])?;
    Ok(Verdict::Sum(Sums::of(sums)))
}

/// The total once the verdict of one of two ranges is added, and then that of the other.
fn total_of(
    rt: &impl Abort,
    alloc: Global,
    job: &Job,
    range: u32,
    first: &Verdict,
    second: &Verdict,
) -> Result<RunningTotal, Fail>
    requires two { ranges job.now ≡ 2 }
    requires range { range < 2 }
{
    assert!(rt; job.fits(range, first));
    assert!(rt; job.fits(1 - range, second));
    let mut total = RunningTotal::new(alloc, job)?;
    total.add(job, range, first);
    total.add(job, 1 - range, second);
    Ok(total)
}

#[test]
fn totals_of_two_ranges(rt: HostRuntime) -> Result<(), Fail> {
    let alloc = rt.alloc();
    let job = read_job_text(alloc, TWO)?;
    assert!(rt; job.ranges() == 2);
    let limit = (1 << 95) - 1;
    for (range, first, second, sums, over) in [
        (0, Ok((1, 2)), Ok((30, 40)), (31, 42), None),
        (1, Ok((1, 2)), Ok((-1, 40)), (0, 42), None),
        (
            0,
            Ok((limit, 0)),
            Ok((limit, -limit)),
            (2 * limit, -limit),
            None,
        ),
        (0, Err(1), Ok((3, 4)), (3, 4), Some(1)),
        (1, Ok((3, 4)), Err(0), (3, 4), Some(0)),
        (0, Err(1), Err(2), (0, 0), Some(1)),
        (1, Err(3), Err(1), (0, 0), Some(1)),
    ] {
        let first = verdict_of(&rt, alloc, first)?;
        let second = verdict_of(&rt, alloc, second)?;
        let total = total_of(&rt, alloc, &job, range, &first, &second)?;
        assert_eq!(rt; total.over(), over);
        assert_eq!(rt; total.sums().len(), 2);
        assert_eq!(rt; (total.sums()[0].b, total.sums()[1].b), sums);
    }
    Ok(())
}
