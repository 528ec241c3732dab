// Claims, hosts and registers at their limits, run.
use crate::foreign::AlwaysOther;
use claims::claim::Claim;
use claims::codes::ResultCode;
use claims::terms::Terms;
use denials::Denial;
use hosts::host::Host;
use hosts::ledger::{Ledger, LedgerRow};
use hosts::sheet::{Sheet, SheetRow};
use registers::above::Above;
use registers::pile::Pile;
use registers::register::Register;
use std::alloc::Global;
use std::test::Fail;
use tables::rows::{AccountRow, CeilingRow, CustomerRow};
use tables::table::Table;

const BILLER: u64 = 123;

const ACCOUNT: u64 = 200_310_000_007;

// The largest number of ten digits.
const NINES: u64 = 9_999_999_999;

// The largest of fifteen.
const LIMIT: u64 = 999_999_999_999_999;

// The terms of a claim of this amount; customer number 41.
fn terms_of(amount: u64) -> Terms {
    Terms {
        biller: BILLER,
        account: ACCOUNT,
        high: 0,
        low: 41,
        amount,
    }
}

fn claim_of(amount: u64) -> Result<Claim, Denial> {
    Claim::try_from(terms_of(amount))
}

// Whether a claim can be made of these numbers.
fn made(biller: u64, account: u64, high: u64, low: u64, amount: u64) -> Result<(), Denial> {
    Claim::try_from(Terms {
        biller,
        account,
        high,
        low,
        amount,
    })?;
    Ok(())
}

fn ledger_of(heap: Global, balance: u64, taken: u64) -> Result<Ledger, Fail> {
    let mut ledger = Ledger::new(heap);
    ledger.add(LedgerRow {
        account: ACCOUNT,
        balance,
        taken,
    })?;
    Ok(ledger)
}

fn sheet_row(amount: u64, code: u8) -> SheetRow {
    SheetRow {
        terms: terms_of(amount),
        code,
        spent: false,
    }
}

fn account_row(account: u64) -> AccountRow {
    AccountRow {
        biller: BILLER,
        account,
    }
}

fn holder_stop(heap: Global) -> Result<Register, Fail> {
    let mut table = Table::new(heap)?;
    table.list(account_row(ACCOUNT))?;
    Ok(Register::HolderStop(table))
}

fn no_mandates(heap: Global) -> Result<Register, Fail> {
    let table: Table<AccountRow> = Table::new(heap)?;
    Ok(Register::Mandates(table))
}

fn ceiling(heap: Global, left: u64) -> Result<Register, Fail> {
    let mut table = Table::new(heap)?;
    table.list(CeilingRow {
        biller: BILLER,
        left,
    })?;
    Ok(Register::Ceiling(table))
}

#[test]
fn an_exact_balance_settles_and_one_yen_more_is_short(rt: HostRuntime) -> Result<(), Fail> {
    let mut ledger = ledger_of(rt.alloc(), 1_500, 0)?;
    assert_eq!(rt; ledger.inquire(&claim_of(1_501)?), ResultCode::ShortOfFunds);
    assert_eq!(rt; ledger.debit(&claim_of(1_500)?), ResultCode::Settled);
    assert_eq!(rt; ledger.tell_taken(ACCOUNT), 1_500);
    assert_eq!(rt; ledger.debit(&claim_of(1)?), ResultCode::ShortOfFunds);
    Ok(())
}

#[test]
fn the_first_row_of_an_account_counts(rt: HostRuntime) -> Result<(), Fail> {
    let mut ledger = ledger_of(rt.alloc(), 10, 0)?;
    ledger.add(LedgerRow {
        account: ACCOUNT,
        balance: 1_000,
        taken: 7,
    })?;
    assert_eq!(rt; ledger.inquire(&claim_of(11)?), ResultCode::ShortOfFunds);
    assert_eq!(rt; ledger.tell_taken(ACCOUNT), 0);
    assert_eq!(rt; ledger.debit(&claim_of(10)?), ResultCode::Settled);
    assert_eq!(rt; ledger.tell_taken(ACCOUNT), 10);
    Ok(())
}

#[test]
fn a_taken_figure_stops_at_its_limit(rt: HostRuntime) -> Result<(), Fail> {
    let mut ledger = ledger_of(rt.alloc(), LIMIT, LIMIT - 5)?;
    assert_eq!(rt; ledger.inquire(&claim_of(6)?), ResultCode::Other);
    assert_eq!(rt; ledger.debit(&claim_of(5)?), ResultCode::Settled);
    assert_eq!(rt; ledger.tell_taken(ACCOUNT), LIMIT);
    assert_eq!(rt; ledger.debit(&claim_of(1)?), ResultCode::Other);
    Ok(())
}

#[test]
fn a_claim_keeps_its_widths(rt: HostRuntime) {
    let denied = Err(Denial::OutsideWidth);
    assert_eq!(rt; made(NINES, LIMIT, NINES, NINES, NINES), Ok(()));
    assert_eq!(rt; made(NINES + 1, LIMIT, NINES, NINES, NINES), denied);
    assert_eq!(rt; made(NINES, LIMIT + 1, NINES, NINES, NINES), denied);
    assert_eq!(rt; made(NINES, LIMIT, NINES + 1, NINES, NINES), denied);
    assert_eq!(rt; made(NINES, LIMIT, NINES, NINES + 1, NINES), denied);
    assert_eq!(rt; made(NINES, LIMIT, NINES, NINES, NINES + 1), denied);
    assert_eq!(rt; made(0, 0, 0, 0, 1), Ok(()));
    assert_eq!(rt; made(0, 0, 0, 0, 0), denied);
}

#[test]
fn a_sheet_row_is_spent_once_and_an_odd_code_never(rt: HostRuntime) -> Result<(), Fail> {
    let mut sheet = Sheet::new(rt.alloc());
    sheet.add(sheet_row(700, 0))?;
    sheet.add(sheet_row(700, 1))?;
    sheet.add(sheet_row(800, 5))?;
    assert_eq!(rt; sheet.debit(&claim_of(700)?), ResultCode::Settled);
    assert_eq!(rt; sheet.debit(&claim_of(700)?), ResultCode::ShortOfFunds);
    assert_eq!(rt; sheet.debit(&claim_of(700)?), ResultCode::ShortOfFunds);
    assert_eq!(rt; sheet.debit(&claim_of(800)?), ResultCode::Other);
    assert_eq!(rt; sheet.debit(&claim_of(900)?), ResultCode::Other);
    assert_eq!(rt; sheet.tell_taken(ACCOUNT), 700);
    Ok(())
}

#[test]
fn the_hundred_thousandth_sheet_row_counts_and_the_next_does_not(
    rt: HostRuntime,
) -> Result<(), Fail> {
    let mut sheet = Sheet::new(rt.alloc());
    for _ in 0..99_999 {
        sheet.add(sheet_row(1, 9))?;
    }
    sheet.add(sheet_row(700, 0))?;
    sheet.add(sheet_row(800, 0))?;
    assert_eq!(rt; sheet.debit(&claim_of(700)?), ResultCode::Settled);
    assert_eq!(rt; sheet.debit(&claim_of(800)?), ResultCode::Other);
    assert_eq!(rt; sheet.tell_taken(ACCOUNT), 700);
    Ok(())
}

#[test]
fn a_stop_above_a_missing_mandate_gives_3(rt: HostRuntime) -> Result<(), Fail> {
    let heap = rt.alloc();
    let mandates = Above::pile(no_mandates(heap)?, ledger_of(heap, 1_500, 0)?);
    let pile = Above::pile(holder_stop(heap)?, mandates);
    assert_eq!(rt;
        pile.inquire(&claim_of(1_500)?),
        ResultCode::StoppedByHolder
    );
    Ok(())
}

#[test]
fn a_missing_mandate_above_a_stop_gives_4(rt: HostRuntime) -> Result<(), Fail> {
    let heap = rt.alloc();
    let stop = Above::pile(holder_stop(heap)?, ledger_of(heap, 1_500, 0)?);
    let pile = Above::pile(no_mandates(heap)?, stop);
    assert_eq!(rt; pile.inquire(&claim_of(1_500)?), ResultCode::NoMandate);
    Ok(())
}

#[test]
fn a_ceiling_falls_only_with_what_settles(rt: HostRuntime) -> Result<(), Fail> {
    let heap = rt.alloc();
    let mut pile = Pile::new(heap, ledger_of(heap, 1_600, 0)?);
    pile.put(ceiling(heap, 2_000)?)?;
    pile.put(ceiling(heap, 1_700)?)?;
    assert_eq!(rt; pile.debit(&claim_of(1_700)?), ResultCode::ShortOfFunds);
    assert_eq!(rt; pile.debit(&claim_of(1_500)?), ResultCode::Settled);
    assert_eq!(rt; pile.debit(&claim_of(201)?), ResultCode::Other);
    assert_eq!(rt; pile.debit(&claim_of(200)?), ResultCode::ShortOfFunds);
    assert_eq!(rt; pile.tell_taken(ACCOUNT), 1_500);
    Ok(())
}

#[test]
fn a_ceiling_of_1500_lets_1500_settle_and_then_objects_to_1(rt: HostRuntime) -> Result<(), Fail> {
    let heap = rt.alloc();
    let mut pile = Pile::new(heap, ledger_of(heap, 5_000, 0)?);
    pile.put(ceiling(heap, 1_500)?)?;
    assert_eq!(rt; pile.debit(&claim_of(1_500)?), ResultCode::Settled);
    assert_eq!(rt; pile.debit(&claim_of(1)?), ResultCode::Other);
    Ok(())
}

#[test]
fn a_register_holds_256_rows_and_a_struck_place_is_free(rt: HostRuntime) -> Result<(), Fail> {
    let mut table = Table::new(rt.alloc())?;
    for account in 0..256 {
        assert_eq!(rt; table.list(account_row(account)), Ok(()));
    }
    assert_eq!(rt; table.list(account_row(256)), Err(Denial::RegisterFull));
    assert_eq!(rt; table.list(account_row(17)), Err(Denial::AlreadyListed));
    assert_eq!(rt;
        table.list(account_row(LIMIT + 1)),
        Err(Denial::OutsideWidth)
    );
    assert_eq!(rt; table.strike(&account_row(256)), Err(Denial::NotListed));
    assert_eq!(rt;
        table.strike(&account_row(LIMIT + 1)),
        Err(Denial::OutsideWidth)
    );
    assert_eq!(rt; table.strike(&account_row(17)), Ok(()));
    assert_eq!(rt; table.strike(&account_row(17)), Err(Denial::NotListed));
    assert_eq!(rt; table.list(account_row(256)), Ok(()));
    assert_eq!(rt; table.list(account_row(17)), Err(Denial::RegisterFull));
    assert_eq!(rt; table.rows().len(), 256);
    Ok(())
}

#[test]
fn a_biller_has_one_ceiling(rt: HostRuntime) -> Result<(), Fail> {
    let mut table = Table::new(rt.alloc())?;
    assert_eq!(rt;
        table.list(CeilingRow {
            biller: BILLER,
            left: 0,
        }),
        Ok(())
    );
    assert_eq!(rt;
        table.list(CeilingRow {
            biller: BILLER,
            left: 5,
        }),
        Err(Denial::AlreadyListed)
    );
    assert_eq!(rt;
        table.list(CeilingRow {
            biller: 1,
            left: LIMIT + 1,
        }),
        Err(Denial::OutsideWidth)
    );
    assert_eq!(rt;
        table.strike(&CeilingRow {
            biller: BILLER,
            left: LIMIT + 1,
        }),
        Ok(())
    );
    assert_eq!(rt;
        table.list(CeilingRow {
            biller: BILLER,
            left: 5,
        }),
        Ok(())
    );
    assert_eq!(rt; table.left_to(BILLER), Some(5));
    Ok(())
}

#[test]
fn a_stopped_customer_gives_8_until_the_register_is_taken_off(rt: HostRuntime) -> Result<(), Fail> {
    let heap = rt.alloc();
    let mut table = Table::new(heap)?;
    assert_eq!(rt;
        table.list(CustomerRow {
            biller: BILLER,
            high: 0,
            low: 41,
        }),
        Ok(())
    );
    let mut pile = Pile::new(heap, ledger_of(heap, 5_000, 0)?);
    pile.put(Register::BillerStop(table))?;
    assert_eq!(rt; pile.debit(&claim_of(1)?), ResultCode::StoppedByBiller);
    assert_eq!(rt; pile.tell_taken(ACCOUNT), 0);
    assert_eq!(rt; pile.take_off().is_some(), true);
    assert_eq!(rt; pile.take_off().is_some(), false);
    assert_eq!(rt; pile.debit(&claim_of(1)?), ResultCode::Settled);
    Ok(())
}

#[test]
fn a_foreign_host_below_registers_is_asked_last(rt: HostRuntime) -> Result<(), Fail> {
    let heap = rt.alloc();
    let mut pile = Above::pile(no_mandates(heap)?, AlwaysOther);
    assert_eq!(rt; pile.debit(&claim_of(1)?), ResultCode::NoMandate);
    let (_register, mut host) = pile.take_apart();
    assert_eq!(rt; host.debit(&claim_of(1)?), ResultCode::Other);
    assert_eq!(rt; host.tell_taken(ACCOUNT), 0);
    Ok(())
}
