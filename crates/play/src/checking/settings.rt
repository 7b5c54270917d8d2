// The settings gone through in a check, and at each setting its replies.
ghost use Rattle.std.specs.Prelude.{◌≡◌, ℕ, ◌+◌, ◌≤◌, Bool, true, List, MatchResult};
ghost use Rattle.prefix.specs.Kinds.{is_reply};
ghost use Rattle.prefix.specs.Lines.{setting_before, SettingMask};
ghost use Rattle.prefix.specs.Prefixes.{kinds};
ghost use Rattle.book.specs.declared.side.Side.TheVariants.{On};
ghost use Rattle.play.specs.Checking.{OneYes, NoFault, FaultOn, Concludes};
ghost use Rattle.play.specs.CheckSteps.{setting_of, CheckedTo, BothSay};

use crate::verdict::{Checked, Verdict};
use book::Book;
use prefix::{Line, PartLine, Prefix};
use sheet::Sheet;

// Checks the settings in rising number, up to the first fault.
pub(super) fn check_settings<F: Sheet, B: Book>(sheet: &F, book: &B, prefix: Prefix) -> Checked
    requires prefixes { (F.Sheet.prefix sheet.now ≡ prefix) × (B.Book.prefix book.now ≡ prefix) }
    ensures { Concludes (F.Sheet.kept sheet.now) (B.Book.guards book.now) (kinds prefix) result }
{
    for number in 0..prefix.setting_count() {
        // each number below the count is that of a setting
        let setting = prefix.setting_line(prefix.len() + 1, number).unwrap();
        if let Err(verdict) = check_setting(sheet, book, prefix, number, setting) {
            return Checked {
                verdict,
                tried: number + 1,
            };
        }
    }
    Checked {
        verdict: Verdict::Accepted,
        tried: prefix.setting_count(),
    }
}

// Checks one setting: its replies in order, and then its line. An error is its fault.
fn check_setting<F: Sheet, B: Book>(
    sheet: &F,
    book: &B,
    prefix: Prefix,
    number: usize,
    setting: Line,
) -> Result<(), Verdict>
    requires prefixes { (F.Sheet.prefix sheet.now ≡ prefix) × (B.Book.prefix book.now ≡ prefix) }
    requires setting { SettingMask prefix (prefix.length + 1) number setting.mask }
    ensures { MatchResult result
        (λ _. NoFault (F.Sheet.kept sheet.now) (B.Book.guards book.now) (kinds prefix) (setting_of prefix setting.mask))
        (λ verdict. FaultOn (F.Sheet.kept sheet.now) (B.Book.guards book.now) (kinds prefix) (setting_of prefix setting.mask) verdict) }
{
    let line = line_of(book, prefix, number, setting)?;
    let whole = PartLine {
        length: prefix.len(),
        line,
    };
    if sheet.broken(whole) {
        return Err(Verdict::Broken { setting: number });
    }
    Ok(())
}

// The line of a setting, with the replies that the on-guards give; an error where a reply does
// not have exactly one guard that is yes.
fn line_of<B: Book>(book: &B, prefix: Prefix, number: usize, setting: Line) -> Result<Line, Verdict>
    requires prefixes { B.Book.prefix book.now ≡ prefix }
    requires setting { SettingMask prefix (prefix.length + 1) number setting.mask }
    ensures { MatchResult result
        (λ line. CheckedTo (B.Book.guards book.now) prefix setting.mask (prefix.length + 1) line.mask)
        (λ verdict. (kept : List Bool → Bool) → FaultOn kept (B.Book.guards book.now) (kinds prefix) (setting_of prefix setting.mask) verdict) }
{
    let mut line = setting;
    for position in 1..=prefix.len() {
        line = take_position(book, prefix, position, line, number)?;
    }
    Ok(line)
}

// Goes past a position, and returns the line with the value there; a report's value is in the
// line already.
fn take_position<B: Book>(
    book: &B,
    prefix: Prefix,
    position: usize,
    line: Line,
    number: usize,
) -> Result<Line, Verdict>
    requires prefixes { B.Book.prefix book.now ≡ prefix }
    requires within { (1 ≤ position) × (position ≤ prefix.length) }
    ensures { (a : ℕ) → SettingMask prefix (prefix.length + 1) number a → CheckedTo (B.Book.guards book.now) prefix a position line.mask
        → MatchResult result
        (λ past. CheckedTo (B.Book.guards book.now) prefix a (position + 1) past.mask)
        (λ verdict. (kept : List Bool → Bool) → FaultOn kept (B.Book.guards book.now) (kinds prefix) (setting_of prefix a) verdict) }
{
    if !prefix.is_reply(position) {
        return Ok(line);
    }
    let on = reply_value(book, position, line, number)?;
    Ok(line.with(position, on))
}

// The value of a reply that has exactly one guard that is yes; an error where both are, or
// neither.
fn reply_value<B: Book>(
    book: &B,
    position: usize,
    line: Line,
    number: usize,
) -> Result<bool, Verdict>
    requires reply { is_reply (kinds (B.Book.prefix book.now)) position ≡ true }
    ensures { MatchResult result
        (λ on. (on ≡ B.Book.guards book.now On position (setting_before (B.Book.prefix book.now) position line.mask))
        × OneYes (B.Book.guards book.now) position (setting_before (B.Book.prefix book.now) position line.mask))
        (λ verdict. BothSay (B.Book.guards book.now) position (setting_before (B.Book.prefix book.now) position line.mask) number verdict) }
{
    let on = book.on(position, line);
    if on != book.off(position, line) {
        return Ok(on);
    }
    Err(if on {
        Verdict::Torn {
            position,
            setting: number,
        }
    } else {
        Verdict::Silent {
            position,
            setting: number,
        }
    })
}
