// The points gone through in a search: setting by setting, and at each setting reply by reply.
// The inner calls speak of any policy that is on exactly where on can still win.
ghost use Rattle.std.specs.Prelude.{◌≡◌, ℕ, ◌+◌, ◌-◌, ◌^◌, ◌≤◌, Bool, true, Decides, List, [], ◌∷◌, ◌++◌, drop, length as count};
ghost use Rattle.prefix.specs.Bits.{bits};
ghost use Rattle.prefix.specs.Kinds.{is_reply, report_count};
ghost use Rattle.prefix.specs.Lines.{setting_before, SettingMask};
ghost use Rattle.prefix.specs.Policies.{Policy, Winnable};
ghost use Rattle.prefix.specs.Prefixes.{kinds};
ghost use Rattle.book.specs.Guards.{AllNo, Added};
ghost use Rattle.play.specs.Filling.{AddsOne, first_number, side_of};
ghost use Rattle.play.specs.Searching.{OnWhereItCanWin};
ghost use Rattle.play.specs.Steps.{Ready, StillReady, FilledTo};
ghost use Rattle.play.specs.LineTo.{LineTo};

use book::{FillableBook, Side};
use prefix::{Line, PartLine, Prefix};
use sheet::Sheet;
use worth::{WorthStack, can_win};

// Adds the guards of all points to a book that has none.
pub(super) fn fill<'a, F: Sheet, B: FillableBook>(
    stack: &mut WorthStack<'a, bool>,
    sheet: &F,
    book: &mut B,
    prefix: Prefix,
)
    requires prefixes { (F.Sheet.prefix sheet.now ≡ prefix) × (B.Book.prefix book.old ≡ prefix) }
    requires room { B.FillableBook.room book.old ≡ true }
    requires stack { Ready prefix.length stack.old.cells.now }
    requires none { AllNo (kinds prefix) (B.Book.guards book.old) }
    ensures prefix { B.Book.prefix book.new ≡ prefix }
    ensures room { B.FillableBook.room book.new ≡ true }
    ensures memory { B.FillableBook.unaltered book.new ≡ B.FillableBook.unaltered book.old }
    ensures stack { StillReady stack.old.cells.now stack.new.cells.now }
    ensures name { stack.new.cells.ghost_name ≡ stack.old.cells.ghost_name }
    ensures filled { (p : Policy) → OnWhereItCanWin (F.Sheet.kept sheet.now) (kinds prefix) p
        → FilledTo (AddsOne B.FillableBook.Adds B.Book.guards (kinds prefix)) (kinds prefix) p (2 ^ report_count (kinds prefix)) 1 book.old book.new (B.Book.guards book.new) }
{
    for number in 0..prefix.setting_count() {
        // each number below the count is that of a setting
        let setting = prefix.setting_line(prefix.len() + 1, number).unwrap();
        take_setting(stack, sheet, book, prefix, number, setting);
    }
}

// Adds the guards of the points that a setting is the first to have.
fn take_setting<'a, F: Sheet, B: FillableBook>(
    stack: &mut WorthStack<'a, bool>,
    sheet: &F,
    book: &mut B,
    prefix: Prefix,
    number: usize,
    setting: Line,
)
    requires prefixes { (F.Sheet.prefix sheet.now ≡ prefix) × (B.Book.prefix book.old ≡ prefix) }
    requires room { B.FillableBook.room book.old ≡ true }
    requires stack { Ready prefix.length stack.old.cells.now }
    requires setting { SettingMask prefix (prefix.length + 1) number setting.mask }
    ensures prefix { B.Book.prefix book.new ≡ prefix }
    ensures room { B.FillableBook.room book.new ≡ true }
    ensures memory { B.FillableBook.unaltered book.new ≡ B.FillableBook.unaltered book.old }
    ensures stack { StillReady stack.old.cells.now stack.new.cells.now }
    ensures name { stack.new.cells.ghost_name ≡ stack.old.cells.ghost_name }
    ensures filled { (p : Policy) (start : B) → OnWhereItCanWin (F.Sheet.kept sheet.now) (kinds prefix) p
        → FilledTo (AddsOne B.FillableBook.Adds B.Book.guards (kinds prefix)) (kinds prefix) p number 1 start book.old (B.Book.guards book.old)
        → FilledTo (AddsOne B.FillableBook.Adds B.Book.guards (kinds prefix)) (kinds prefix) p (number + 1) 1 start book.new (B.Book.guards book.new) }
{
    let mut line = setting;
    for position in 1..=prefix.len() {
        let step = Step {
            number,
            position,
            line,
        };
        line = take_position(stack, sheet, book, prefix, step);
    }
}

// A step of a search: the number of a setting, a position, and a line with the setting's
// reports and the replies before the position.
#[derive(Clone, Copy)]
struct Step {
    number: usize,
    position: usize,
    line: Line,
}

// Goes past a position, and returns the line with the value there; a report's value is in the
// line already.
fn take_position<'a, F: Sheet, B: FillableBook>(
    stack: &mut WorthStack<'a, bool>,
    sheet: &F,
    book: &mut B,
    prefix: Prefix,
    step: Step,
) -> Line
    requires prefixes { (F.Sheet.prefix sheet.now ≡ prefix) × (B.Book.prefix book.old ≡ prefix) }
    requires room { B.FillableBook.room book.old ≡ true }
    requires stack { Ready prefix.length stack.old.cells.now }
    requires within { (1 ≤ step.position) × (step.position ≤ prefix.length) }
    ensures prefix { B.Book.prefix book.new ≡ prefix }
    ensures room { B.FillableBook.room book.new ≡ true }
    ensures memory { B.FillableBook.unaltered book.new ≡ B.FillableBook.unaltered book.old }
    ensures stack { StillReady stack.old.cells.now stack.new.cells.now }
    ensures name { stack.new.cells.ghost_name ≡ stack.old.cells.ghost_name }
    ensures passed { (p : Policy) (start : B) (setting : ℕ) → OnWhereItCanWin (F.Sheet.kept sheet.now) (kinds prefix) p
        → SettingMask prefix (prefix.length + 1) step.number setting → LineTo prefix p setting step.position step.line.mask
        → FilledTo (AddsOne B.FillableBook.Adds B.Book.guards (kinds prefix)) (kinds prefix) p step.number step.position start book.old (B.Book.guards book.old)
        → FilledTo (AddsOne B.FillableBook.Adds B.Book.guards (kinds prefix)) (kinds prefix) p step.number (step.position + 1) start book.new (B.Book.guards book.new)
        × LineTo prefix p setting (step.position + 1) result.mask }
{
    if !prefix.is_reply(step.position) {
        return step.line;
    }
    let on = reply_value(stack, sheet, book, prefix, step);
    step.line.with(step.position, on)
}

// The value of a reply. At a point that no earlier setting has, it is found and its guard
// added; at any other the book gives it.
fn reply_value<'a, F: Sheet, B: FillableBook>(
    stack: &mut WorthStack<'a, bool>,
    sheet: &F,
    book: &mut B,
    prefix: Prefix,
    step: Step,
) -> bool
    requires prefixes { (F.Sheet.prefix sheet.now ≡ prefix) × (B.Book.prefix book.old ≡ prefix) }
    requires room { B.FillableBook.room book.old ≡ true }
    requires stack { Ready prefix.length stack.old.cells.now }
    requires within { step.position ≤ prefix.length }
    requires reply { is_reply (kinds prefix) step.position ≡ true }
    ensures prefix { B.Book.prefix book.new ≡ prefix }
    ensures room { B.FillableBook.room book.new ≡ true }
    ensures memory { B.FillableBook.unaltered book.new ≡ B.FillableBook.unaltered book.old }
    ensures stack { StillReady stack.old.cells.now stack.new.cells.now }
    ensures name { stack.new.cells.ghost_name ≡ stack.old.cells.ghost_name }
    ensures passed { (p : Policy) (start : B) (setting : ℕ) → OnWhereItCanWin (F.Sheet.kept sheet.now) (kinds prefix) p
        → SettingMask prefix (prefix.length + 1) step.number setting → LineTo prefix p setting step.position step.line.mask
        → FilledTo (AddsOne B.FillableBook.Adds B.Book.guards (kinds prefix)) (kinds prefix) p step.number step.position start book.old (B.Book.guards book.old)
        → FilledTo (AddsOne B.FillableBook.Adds B.Book.guards (kinds prefix)) (kinds prefix) p step.number (step.position + 1) start book.new (B.Book.guards book.new)
        × (result ≡ p step.position (setting_before prefix step.position step.line.mask)) }
{
    if is_first(prefix, step.position, step.number) {
        return add_guard(stack, sheet, book, step.position, step.line);
    }
    book.on(step.position, step.line)
}

// Whether the setting of a number is the first that has its point at a position: all later
// reports are off.
#[tactic(auto, using(book::proofs::RecordPlaces::some_later, crate::proofs::Numbers::first_decides))]
fn is_first(prefix: Prefix, position: usize, number: usize) -> bool
    requires within { position ≤ prefix.length }
    ensures { (m : ℕ) → SettingMask prefix (prefix.length + 1) number m
        → Decides result (first_number (kinds prefix) position (setting_before prefix position m) ≡ number) }
{
    let later_settings = prefix.setting_count() >> prefix.reports_before(position);
    number % later_settings == 0
}

// Adds the guard of the reply at a position, and returns the reply's value: on where on can
// still win.
fn add_guard<'a, F: Sheet, B: FillableBook>(
    stack: &mut WorthStack<'a, bool>,
    sheet: &F,
    book: &mut B,
    position: usize,
    line: Line,
) -> bool
    requires prefixes { F.Sheet.prefix sheet.now ≡ B.Book.prefix book.old }
    requires room { B.FillableBook.room book.old ≡ true }
    requires reply { is_reply (kinds (B.Book.prefix book.old)) position ≡ true }
    requires cells { (F.Sheet.prefix sheet.now).length ≤ count stack.old.cells.now }
    ensures prefix { B.Book.prefix book.new ≡ B.Book.prefix book.old }
    ensures room { B.FillableBook.room book.new ≡ B.FillableBook.room book.old }
    ensures memory { B.FillableBook.unaltered book.new ≡ B.FillableBook.unaltered book.old }
    ensures stack { StillReady stack.old.cells.now stack.new.cells.now }
    ensures name { stack.new.cells.ghost_name ≡ stack.old.cells.ghost_name }
    ensures value { Decides result (Winnable (F.Sheet.kept sheet.now) (drop position (kinds (F.Sheet.prefix sheet.now))) (bits (position - 1) line.mask ++ true ∷ [])) }
    ensures guards { Added (kinds (B.Book.prefix book.old)) (B.Book.guards book.old) (side_of result) position (setting_before (B.Book.prefix book.old) position line.mask) (B.Book.guards book.new) }
    ensures order { B.FillableBook.Adds book.old (side_of result) position (setting_before (B.Book.prefix book.old) position line.mask) book.new }
{
    let with_on = PartLine {
        length: position,
        line: line.with(position, true),
    };
    let on = can_win(stack, sheet, with_on).unwrap();
    book.add(if on { Side::On } else { Side::Off }, position, line);
    on
}
