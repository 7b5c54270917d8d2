// What the calls of `prefix` answer at chosen prefixes and lines.
use prefix::{Kind, Line, Prefix};
use std::process::Abort;
use std::test::Fail;

#[test]
fn a_prefix_keeps_its_limits(rt: HostRuntime) {
    for (length, reports, answer) in [
        (0, 0, false),
        (1, 0, true),
        (4, 0b0101, true),
        (4, 0b1_0000, false),
        (24, 0x000fff, true),
        (24, 0xfff000, true),
        (24, 0x001fff, false),
        (25, 0, false),
        (usize::MAX, u32::MAX, false),
    ] {
        assert_eq!(rt; Prefix::new(length, reports).is_some(), answer);
    }
}

// Report, reply, report, reply: points at position 2 for two settings before it,
// at position 4 for four.
#[test]
fn two_reports_and_two_replies(rt: HostRuntime) -> Result<(), Fail> {
    let prefix = Prefix::new(4, 0b0101).ok_or("refused")?;
    for (position, kind, before) in [
        (0, None, 0),
        (1, Some(Kind::Report), 0),
        (2, Some(Kind::Reply), 1),
        (3, Some(Kind::Report), 1),
        (4, Some(Kind::Reply), 2),
        (5, None, 2),
        (usize::MAX, None, 2),
    ] {
        assert_eq!(rt; prefix.kind(position), kind);
        assert_eq!(rt; prefix.reports_before(position), before);
    }
    assert_eq!(rt; prefix.setting_count(), 4);
    assert_eq!(rt; prefix.point_count(), 6);
    Ok(())
}

#[test]
fn twelve_reports_then_twelve_replies(rt: HostRuntime) -> Result<(), Fail> {
    let prefix = Prefix::new(24, 0x000fff).ok_or("refused")?;
    assert_eq!(rt; prefix.setting_count(), 4096);
    assert_eq!(rt; prefix.point_count(), 12 * 4096);
    assert_eq!(rt; prefix.point_count(), Prefix::MOST_POINTS);
    Ok(())
}

// A position, the number of a line's setting there, and how many settings there are: the last
// has a line, and none comes after it.
type SettingCase = (usize, usize, usize);

fn compare_settings(
    rt: &impl Abort,
    prefix: Prefix,
    mask: u32,
    cases: &[SettingCase],
) -> Result<(), Fail> {
    let line = Line::from_mask(mask);
    for (position, number, count) in cases {
        assert_eq!(rt; prefix.setting_number(*position, line), *number);
        let last = count.saturating_sub(1);
        let last_line = prefix.setting_line(*position, last).ok_or("no line")?;
        assert_eq!(rt; prefix.setting_number(*position, last_line), last);
        assert_eq!(rt; prefix.setting_line(*position, *count), None);
    }
    Ok(())
}

// Compares the lines of settings before a position, by number, and their numbers again.
fn compare_lines(
    rt: &impl Abort,
    prefix: Prefix,
    position: usize,
    cases: &[(usize, u32)],
) -> Result<(), Fail> {
    for (number, mask) in cases {
        let line = prefix.setting_line(position, *number).ok_or("no line")?;
        assert_eq!(rt; line.mask(), *mask);
        assert_eq!(rt; prefix.setting_number(position, line), *number);
    }
    Ok(())
}

// Reports at 1 and 3: the first of them weighs most. Lines with the first report on, and with
// the last.
#[test]
fn settings_of_two_reports(rt: HostRuntime) -> Result<(), Fail> {
    let prefix = Prefix::new(4, 0b0101).ok_or("refused")?;
    let first_on = [
        (0, 0, 1),
        (1, 0, 1),
        (2, 1, 2),
        (4, 2, 4),
        (5, 2, 4),
        (25, 2, 4),
        (usize::MAX, 2, 4),
    ];
    compare_settings(&rt, prefix, 0b1011, &first_on)?;
    let last_on = [
        (0, 0, 1),
        (1, 0, 1),
        (2, 0, 2),
        (4, 1, 4),
        (5, 1, 4),
        (25, 1, 4),
        (usize::MAX, 1, 4),
    ];
    compare_settings(&rt, prefix, 0b1110, &last_on)?;
    let lines = [(0, 0b0000), (1, 0b0100), (2, 0b0001), (3, 0b0101)];
    compare_lines(&rt, prefix, 4, &lines)
}

#[test]
fn settings_of_twelve_reports(rt: HostRuntime) -> Result<(), Fail> {
    let prefix = Prefix::new(24, 0x000fff).ok_or("refused")?;
    let first_on = [
        (0, 0, 1),
        (1, 0, 1),
        (2, 1, 2),
        (4, 4, 8),
        (5, 8, 16),
        (25, 2048, 4096),
        (usize::MAX, 2048, 4096),
    ];
    compare_settings(&rt, prefix, 0xfff001, &first_on)?;
    let lines = [(0, 0x000), (1, 0x800), (2048, 0x001), (4095, 0xfff)];
    compare_lines(&rt, prefix, 25, &lines)
}

#[test]
fn a_line_changes_at_one_position(rt: HostRuntime) {
    let line = Line::from_mask(0b0110);
    for (position, value, mask) in [
        (0, true, 0b0110),
        (1, true, 0b0111),
        (2, true, 0b0110),
        (3, false, 0b0010),
        (32, true, 0x8000_0006),
        (33, true, 0b0110),
    ] {
        assert_eq!(rt; line.with(position, value).mask(), mask);
    }
    assert_eq!(rt; line.value(0), false);
    assert_eq!(rt; line.value(2), true);
    assert_eq!(rt; line.value(usize::MAX), false);
}
