// What the values of a line ask for.
ghost use Rattle.std.specs.Prelude.{◌≡◌, ◌≤◌, ℕ, Option, MatchResult};
ghost use Rattle.std.specs.Fmt.{decimal};
ghost use Rattle.std.specs.Prelude.{⊤, Bool, IfErr};
ghost use Rattle.device_lists.specs.declared.column.Column.TheVariants.{LastDevNonce};
ghost use Rattle.device_lists.specs.declared.reading.ListUse.TheVariants.{Import, Amend};
ghost use Rattle.device_lists.specs.Values.{HasRest, IsAmendmentOf, IsDevNonce, IsGiven, IsGivenOr};
ghost use Rattle.device_lists.specs.Values.{IsImportOf, IsIn, IsMissingOrWrong, IsNonceChange};
ghost use Rattle.device_lists.specs.Values.{IsValuesFault, IsWrongValue, MayBeGiven, text_in};
ghost use Rattle.device_lists.specs.Values.{yes_or_no};

use crate::{Column, LineFault, LineValues};
use device_changes::{Amendment, Importing, LastJoinNonce};
use devices::{Provisioning, Ranged, Rx1Offset, RxDelay};
use lw_types::FromText;

/// The import that a line asks for. Refused exactly if it asks for none, because a value is missing
/// or is none of its column. Offset and Delay are 0 and 1 if they are missing, and the last nonces
/// are none and 0.
pub fn importing_of(fields: &LineValues<'_>) -> Result<Importing, LineFault>
    ensures value { MatchResult result (λ i. IsImportOf fields.now i)
        (λ _. (i : Importing) → ¬ (IsImportOf fields.now i)) }
    ensures why { IfErr result (IsValuesFault Import fields.now) }
{
    let dev_eui = given(Column::DevEui, fields.dev_eui)?;
    let join_eui = given(Column::JoinEui, fields.join_eui)?;
    let app_key = given(Column::AppKey, fields.app_key)?;
    let application = needed_number(Column::Application, fields.application)?;
    let rx1_offset = number_or(Column::Offset, fields.offset, usual_offset())?;
    let rx_delay = number_or(Column::Delay, fields.delay, usual_delay())?;
    let last_dev_nonce = may_be_given(Column::LastDevNonce, fields.last_dev_nonce)?;
    let last_join_nonce = number_or(
        Column::LastJoinNonce,
        fields.last_join_nonce,
        no_join_nonce(),
    )?;
    check_rest(fields)?;
    let provisioning = Provisioning {
        application,
        dev_eui,
        join_eui,
        app_key,
        rx1_offset,
        rx_delay,
    };
    Ok(Importing {
        provisioning,
        last_dev_nonce,
        last_join_nonce,
    })
}

fn usual_offset() -> Rx1Offset
    ensures { result ≡ 0 }
{
    Ranged::new(0).unwrap()
}

fn usual_delay() -> RxDelay
    ensures { result ≡ 1 }
{
    Ranged::new(1).unwrap()
}

fn no_join_nonce() -> LastJoinNonce
    ensures { result ≡ 0 }
{
    Ranged::new(0).unwrap()
}

/// The amendment that a line asks for: what is missing stays as it is. Refused exactly if it asks
/// for none, because there is no DevEUI, or because a value is none of its column.
pub fn amendment_of(fields: &LineValues<'_>) -> Result<Amendment, LineFault>
    ensures value { MatchResult result (λ a. IsAmendmentOf fields.now a)
        (λ _. (a : Amendment) → ¬ (IsAmendmentOf fields.now a)) }
    ensures why { IfErr result (IsValuesFault Amend fields.now) }
{
    let dev_eui = given(Column::DevEui, fields.dev_eui)?;
    let app_key = may_be_given(Column::AppKey, fields.app_key)?;
    let application = number(Column::Application, fields.application)?;
    let join_eui = may_be_given(Column::JoinEui, fields.join_eui)?;
    let rx1_offset = number(Column::Offset, fields.offset)?;
    let rx_delay = number(Column::Delay, fields.delay)?;
    let last_dev_nonce = nonce_change(fields.last_dev_nonce)?;
    let last_join_nonce = number(Column::LastJoinNonce, fields.last_join_nonce)?;
    check_rest(fields)?;
    Ok(Amendment {
        dev_eui,
        app_key,
        application,
        join_eui,
        rx1_offset,
        rx_delay,
        last_dev_nonce,
        last_join_nonce,
    })
}

// A whole number in a range, in decimal.
#[derive(Clone, Copy)]
struct Decimal<const LEAST: u64, const MOST: u64>(Ranged<LEAST, MOST>);

impl<const LEAST: u64, const MOST: u64> FromText for Decimal<LEAST, MOST> {
    ghost is_value = { λ n. (LEAST ≤ n.0) × (n.0 ≤ MOST) };

    ghost text_of = { λ n. decimal n.0 };

    fn from_text(text: &str) -> Option<Self> {
        Some(Decimal(Ranged::new(u64::from_text(text)?)?))
    }
}

// Whether a device has a session.
#[derive(Clone, Copy)]
struct YesOrNo(bool);

impl FromText for YesOrNo {
    ghost use Rattle.device_lists.specs.Values.{yes_or_no};

    ghost text_of = { λ answer. yes_or_no answer.0 };

    #[tactic(auto, unfolding(crate::specs::Values::yes_or_no))]
    fn from_text(text: &str) -> Option<Self> {
        match text {
            "yes" => Some(YesOrNo(true)),
            "no" => Some(YesOrNo(false)),
            _ => None,
        }
    }
}

// A value that is needed.
fn given<T: FromText + Copy>(column: Column, field: Option<&str>) -> Result<T, LineFault>
    ensures value { MatchResult result (λ x. IsGiven T.is_value T.text_of (text_in field.entry) x)
        (λ _. (x : T) → ¬ (IsGiven T.is_value T.text_of (text_in field.entry) x)) }
    ensures why { IfErr result (IsMissingOrWrong column (text_in field.entry)
        ((x : T) × IsGiven T.is_value T.text_of (text_in field.entry) x)) }
{
    let Some(text) = field else {
        return Err(LineFault::Missing(column));
    };
    match T::from_text(text) {
        Some(value) => Ok(value),
        None if text.is_empty() => Err(LineFault::Missing(column)),
        None => Err(LineFault::Value(column)),
    }
}

// A value that may be missing.
fn may_be_given<T: FromText + Copy>(
    column: Column,
    field: Option<&str>,
) -> Result<Option<T>, LineFault>
    ensures value { MatchResult result
        (λ x. MayBeGiven T.is_value T.text_of (text_in field.entry) x)
        (λ _. (x : Option T) → ¬ (MayBeGiven T.is_value T.text_of (text_in field.entry) x)) }
    ensures why { IfErr result (IsWrongValue column (text_in field.entry)
        ((x : T) × IsGiven T.is_value T.text_of (text_in field.entry) x)) }
{
    let Some(text) = field else {
        return Ok(None);
    };
    if text.is_empty() {
        return Ok(None);
    }
    match T::from_text(text) {
        Some(value) => Ok(Some(value)),
        None => Err(LineFault::Value(column)),
    }
}

// A number that is needed.
fn needed_number<const LEAST: u64, const MOST: u64>(
    column: Column,
    field: Option<&str>,
) -> Result<Ranged<LEAST, MOST>, LineFault>
    ensures value { MatchResult result
        (λ x. IsGiven (IsIn LEAST MOST) decimal (text_in field.entry) x)
        (λ _. (x : ℕ) → ¬ (IsGiven (IsIn LEAST MOST) decimal (text_in field.entry) x)) }
    ensures why { IfErr result (IsMissingOrWrong column (text_in field.entry)
        ((n : ℕ) × IsGiven (IsIn LEAST MOST) decimal (text_in field.entry) n)) }
{
    match given::<Decimal<LEAST, MOST>>(column, field) {
        Ok(number) => Ok(number.0),
        Err(fault) => Err(fault),
    }
}

// A number that may be missing.
fn number<const LEAST: u64, const MOST: u64>(
    column: Column,
    field: Option<&str>,
) -> Result<Option<Ranged<LEAST, MOST>>, LineFault>
    ensures value { MatchResult result
        (λ x. MayBeGiven (IsIn LEAST MOST) decimal (text_in field.entry) x)
        (λ _. (x : Option ℕ)
        → ¬ (MayBeGiven (IsIn LEAST MOST) decimal (text_in field.entry) x)) }
    ensures why { IfErr result (IsWrongValue column (text_in field.entry)
        ((n : ℕ) × IsGiven (IsIn LEAST MOST) decimal (text_in field.entry) n)) }
{
    match may_be_given::<Decimal<LEAST, MOST>>(column, field) {
        Ok(Some(number)) => Ok(Some(number.0)),
        Ok(None) => Ok(None),
        Err(fault) => Err(fault),
    }
}

// An answer that may be missing.
fn session_answer(column: Column, field: Option<&str>) -> Result<Option<bool>, LineFault>
    ensures value { MatchResult result
        (λ x. MayBeGiven (λ _. ⊤) yes_or_no (text_in field.entry) x)
        (λ _. (x : Option Bool) → ¬ (MayBeGiven (λ _. ⊤) yes_or_no (text_in field.entry) x)) }
    ensures why { IfErr result (IsWrongValue column (text_in field.entry)
        ((b : Bool) × IsGiven (λ _. ⊤) yes_or_no (text_in field.entry) b)) }
{
    match may_be_given::<YesOrNo>(column, field) {
        Ok(Some(answer)) => Ok(Some(answer.0)),
        Ok(None) => Ok(None),
        Err(fault) => Err(fault),
    }
}

// A number, or its default if it is missing.
fn number_or<const LEAST: u64, const MOST: u64>(
    column: Column,
    field: Option<&str>,
    default: Ranged<LEAST, MOST>,
) -> Result<Ranged<LEAST, MOST>, LineFault>
    ensures value { MatchResult result
        (λ x. IsGivenOr (IsIn LEAST MOST) decimal default.entry (text_in field.entry) x)
        (λ _. (x : ℕ)
        → ¬ (IsGivenOr (IsIn LEAST MOST) decimal default.entry (text_in field.entry) x)) }
    ensures why { IfErr result (IsWrongValue column (text_in field.entry)
        ((n : ℕ) × IsGiven (IsIn LEAST MOST) decimal (text_in field.entry) n)) }
{
    match number(column, field)? {
        Some(number) => Ok(number),
        None => Ok(default),
    }
}

// What happens to the last DevNonce.
fn nonce_change(field: Option<&str>) -> Result<Option<Option<u16>>, LineFault>
    ensures value { MatchResult result (λ x. IsNonceChange (text_in field.entry) x)
        (λ _. (x : Option (Option ℕ)) → ¬ (IsNonceChange (text_in field.entry) x)) }
    ensures why { IfErr result (IsWrongValue LastDevNonce (text_in field.entry)
        ((n : ℕ) × IsGiven IsDevNonce decimal (text_in field.entry) n)) }
{
    if field.is_none() {
        return Ok(None);
    }
    Ok(Some(may_be_given(Column::LastDevNonce, field)?))
}

// The values that aren't used must be right, too: a faulty line is likely to be shifted.
fn check_rest(fields: &LineValues<'_>) -> Result<(), LineFault>
    ensures value { MatchResult result (λ _. HasRest fields.now) (λ _. ¬ (HasRest fields.now)) }
    ensures of_import { IfErr result (IsValuesFault Import fields.now) }
    ensures of_amendment { IfErr result (IsValuesFault Amend fields.now) }
{
    let _heard = number::<0, 9_223_372_036_854_775_807>(Column::Heard, fields.heard)?;
    let _session = session_answer(Column::Session, fields.session)?;
    Ok(())
}
