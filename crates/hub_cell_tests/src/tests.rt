use hub_cell::{Pass, TurnCell};
use hub_workers::{Done, Entry, Job, Log, run, work};
use std::test::*;

// The entries of each worker in a list, by the worker's number, and whether each one's stand in their order, from 0 on.
fn counts(entries: &[Entry]) -> ([u32; 4], bool) {
    let mut next = [0u32; 4];
    let mut in_order = true;
    for entry in entries {
        let worker = entry.worker as usize;
        if worker < 4 {
            in_order = in_order && entry.number == next[worker];
            next[worker] = next[worker].wrapping_add(1);
        } else {
            in_order = false;
        }
    }
    (next, in_order)
}

#[test]
fn four_workers_take_a_thousand_turns_each(rt: HostRuntime) -> Result<(), Fail> {
    let gathered = run(&rt, rt.alloc(), 4, 1_000)?;
    assert_eq!(rt; gathered.entries.len(), 4_000);
    assert_eq!(rt; counts(gathered.entries.as_slice()), ([1_000; 4], true));
    assert_eq!(rt; gathered.counts.as_slice(), [1_000; 4].as_slice());
    Ok(())
}

#[test]
fn one_seat_has_none_to_spare(rt: HostRuntime) -> Result<(), Fail> {
    let (cell, mut pass) = TurnCell::new(rt.alloc(), Log::new(rt.alloc()), 1)?;
    assert!(rt; cell.split(&mut pass).is_none());
    let mut passes = Vec::new(rt.alloc());
    passes.push(pass)?;
    let Ok(log) = cell.close(passes) else {
        unreachable!()
    };
    assert_eq!(rt; log.into_entries().len(), 0);
    Ok(())
}

#[test]
fn a_refused_cell_hands_its_value_back(rt: HostRuntime) -> Result<(), Fail> {
    match TurnCell::new_or_back(rt.alloc(), Log::new(rt.alloc()), 1) {
        Ok((cell, pass)) => {
            let mut passes = Vec::new(rt.alloc());
            passes.push(pass)?;
            let Ok(log) = cell.close(passes) else {
                unreachable!()
            };
            assert_eq!(rt; log.into_entries().len(), 0);
        }
        Err((log, _)) => assert_eq!(rt; log.into_entries().len(), 0),
    }
    Ok(())
}

// Three seats: the first pass makes two entries, one that is split off it makes one, a third none. The first takes the
// second in and makes two more, and is closed with the third.
#[test]
fn split_and_joined_passes_close_to_one_list(rt: HostRuntime) -> Result<(), Fail> {
    let (cell, mut pass) = TurnCell::new(rt.alloc(), Log::new(rt.alloc()), 3)?;
    let Some(second) = cell.split(&mut pass) else {
        unreachable!()
    };
    let Some(mut third) = cell.split(&mut pass) else {
        unreachable!()
    };
    assert!(rt; cell.split(&mut third).is_none());
    let Done { count, mut pass } = work(&rt, &cell, Job { worker: 0, pass }, 2);
    let second = work(
        &rt,
        &cell,
        Job {
            worker: 1,
            pass: second,
        },
        1,
    );
    assert_eq!(rt; (count, second.count), (2, 1));
    cell.join(&mut pass, second.pass);
    let first = work(&rt, &cell, Job { worker: 2, pass }, 2);
    let mut passes: Vec<Pass<Entry>> = Vec::new(rt.alloc());
    passes.push(third)?;
    passes.push(first.pass)?;
    let Ok(log) = cell.close(passes) else {
        unreachable!()
    };
    let entries = log.into_entries();
    assert_eq!(rt; counts(entries.as_slice()), ([2, 1, 2, 0], true));
    assert_eq!(rt; entries.len(), 5);
    assert_eq!(rt; entries[2].worker, 1);
    assert_eq!(rt; entries[4].worker, 2);
    Ok(())
}
