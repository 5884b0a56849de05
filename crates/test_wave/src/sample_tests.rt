use bus_lines::Lines;
use onfi_cycle::{Cycle, Item, Kind};
use std::test::Fail;

const COMMAND: Cycle = Cycle {
    ce: 1,
    kind: Kind::Cmd,
    byte: 0x60,
};

const ADDRESS: Cycle = Cycle {
    ce: 1,
    kind: Kind::Adr,
    byte: 0x04,
};

const INPUT: Cycle = Cycle {
    ce: 0,
    kind: Kind::Din,
    byte: 0xff,
};

const OUTPUT: Cycle = Cycle {
    ce: 3,
    kind: Kind::Dout,
    byte: 0xe0,
};

// What is sampled off the lines while this cycle goes over them: where it is set up, where its strobe falls, and where it rises.
fn samples(lines: Lines, cycle: Cycle) -> [Option<Cycle>; 3] {
    let set_up = lines.set_up(cycle);
    let struck = set_up.struck(cycle);
    [
        lines.sampled(set_up),
        set_up.sampled(struck),
        struck.sampled(struck.released()),
    ]
}

#[test]
fn a_cycle_is_sampled_where_its_strobe_rises(rt: HostRuntime) -> Result<(), Fail> {
    for cycle in [COMMAND, ADDRESS, INPUT, OUTPUT] {
        assert_eq!(rt; samples(Lines::idle(), cycle), [None, None, Some(cycle)]);
    }
    Ok(())
}

// The lines keep what isn't set up anew: CLE and ALE are low before an output, and DQ has the byte of the cycle before.
#[test]
fn one_cycle_after_another(rt: HostRuntime) -> Result<(), Fail> {
    let lines = Lines::idle().after(Item::Cyc(ADDRESS));
    assert_eq!(rt; samples(lines, OUTPUT), [None, None, Some(OUTPUT)]);
    assert_eq!(rt; lines.set_up(OUTPUT).dq, Some(0x04));
    Ok(())
}

// No chip is enabled, or nobody has driven the bus.
#[test]
fn nothing_is_sampled(rt: HostRuntime) -> Result<(), Fail> {
    let undriven = Lines {
        enabled: Some(0),
        we: false,
        ..Lines::idle()
    };
    let unselected = Lines {
        dq: Some(0x60),
        re: false,
        ..Lines::idle()
    };
    assert_eq!(rt; undriven.sampled(undriven.released()), None);
    assert_eq!(rt; unselected.sampled(unselected.released()), None);
    assert_eq!(rt; Lines::idle().at_rest(), Lines::idle());
    Ok(())
}
