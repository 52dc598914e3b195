use super::*;
use orienteering::{Plan, Point, Tour};
use std::test::*;

/// The points of an instance with two calls: no tour, the first call, the second call.
fn three_points(alloc: Global) -> Result<Vec<Listed>, AllocError> {
    let mut points = Vec::new(alloc);
    for (profit, time, call) in [(0, 0, 0), (5, 6, 1), (7, 8, 2)] {
        let mut tours = Vec::new(alloc);
        if call > 0 {
            tours.push(Tour::from_calls(vec![in alloc; call]?))?;
        }
        points.push(Listed {
            point: Point { profit, time },
            plan: Plan::from_tours(tours),
        })?;
    }
    Ok(points)
}

const OPEN: Box2 = Box2 {
    p_lo: 0,
    p_hi: 12,
    t_lo: 0,
    t_hi: 10,
};

#[test]
fn open_box_of_two_calls(rt: HostRuntime) -> Result<(), Fail> {
    let points = three_points(rt.alloc())?;
    let text = report(rt.alloc(), points.as_slice(), &[OPEN], Style::Plain)?;
    assert!(rt;
        text.as_slice()
            == b"points 3\npoint 0 0 0\npoint 5 6 1\ntour 1\npoint 7 8 1\ntour 2\nboxes 1\nbox 0 12 0 10\n".as_slice()
    );
    let text = report(rt.alloc(), &[], &[], Style::Plain)?;
    assert!(rt; text.as_slice() == b"points 0\nboxes 0\n".as_slice());
    Ok(())
}

#[test]
fn table_report(rt: HostRuntime) -> Result<(), Fail> {
    let points = three_points(rt.alloc())?;
    let text = report(rt.alloc(), points.as_slice(), &[OPEN], Style::Table)?;
    assert!(rt;
        text.as_slice()
            == b"    profit        time tours  calls\n         0           0     0\n         5           6     1  1\n         7           8     1  2\nboxes 1\nbox 0 12 0 10\n".as_slice()
    );
    Ok(())
}

#[test]
fn wide_numbers_and_several_tours(rt: HostRuntime) -> Result<(), Fail> {
    let first = Tour::from_calls(vec![in rt.alloc(); 3, 1]?);
    let second = Tour::from_calls(vec![in rt.alloc(); 2]?);
    let third = Tour::from_calls(vec![in rt.alloc(); 40, 5, 6]?);
    let listed = Listed {
        point: Point {
            profit: 12345678901,
            time: 123456789012,
        },
        plan: Plan::from_tours(vec![in rt.alloc(); first, second, third]?),
    };
    let points = vec![in rt.alloc(); listed]?;
    let text = report(rt.alloc(), points.as_slice(), &[], Style::Table)?;
    assert!(rt;
        text.as_slice()
            == b"    profit        time tours  calls\n12345678901123456789012     3  3 1 | 2 | 40 5 6\nboxes 0\n".as_slice()
    );
    Ok(())
}

#[test]
fn demo_of_one_call(rt: HostRuntime) -> Result<(), Fail> {
    let mut points = three_points(rt.alloc())?;
    points.truncate(1);
    let tours = vec![in rt.alloc(); Tour::from_calls(vec![in rt.alloc(); 1]?)]?;
    points.push(Listed {
        point: Point {
            profit: 7,
            time: 11120,
        },
        plan: Plan::from_tours(tours),
    })?;
    let text = summary(rt.alloc(), 1, points.as_slice(), &[])?;
    assert!(rt;
        text.as_slice() == b"calls 1\npoints 2\nboxes 0\nprofit 7\ntime 11120\n".as_slice()
    );
    let text = summary(rt.alloc(), 300, &[], &[OPEN])?;
    assert!(rt; text.as_slice() == b"calls 300\npoints 0\nboxes 1\nprofit 0\ntime 0\n".as_slice());
    Ok(())
}
