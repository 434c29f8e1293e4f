// The values of a line.
ghost use Rattle.std.specs.Prelude.{◌≡◌, length};
ghost use Rattle.csv.specs.Records.{fields_of};
ghost use Rattle.device_lists.specs.Columns.{IsUnder};
ghost use Rattle.device_lists.specs.Lists.{AreUnder};
ghost use Rattle.device_lists.specs.Values.{text_in};

use crate::Column;
use crate::column::place_of;
use csv::StringRecord;

/// The values of a line that devices are made of. `None` if the list has no such column.
#[derive(Clone, Copy)]
pub struct LineValues<'a> {
    pub dev_eui: Option<&'a str>,
    pub join_eui: Option<&'a str>,
    pub app_key: Option<&'a str>,
    pub application: Option<&'a str>,
    pub offset: Option<&'a str>,
    pub delay: Option<&'a str>,
    pub last_dev_nonce: Option<&'a str>,
    pub last_join_nonce: Option<&'a str>,
    pub heard: Option<&'a str>,
    pub session: Option<&'a str>,
}

impl<'a> LineValues<'a> {
    /// The values of a row that has as many as the head has columns.
    pub(crate) fn of_row(head: &[Column], row: &'a StringRecord) -> Self
        requires { length (fields_of row.now) ≡ length head.now }
        ensures { AreUnder head.now (fields_of row.now) result }
    {
        LineValues {
            dev_eui: value_under(head, row, Column::DevEui),
            join_eui: value_under(head, row, Column::JoinEui),
            app_key: value_under(head, row, Column::AppKey),
            application: value_under(head, row, Column::Application),
            offset: value_under(head, row, Column::Offset),
            delay: value_under(head, row, Column::Delay),
            last_dev_nonce: value_under(head, row, Column::LastDevNonce),
            last_join_nonce: value_under(head, row, Column::LastJoinNonce),
            heard: value_under(head, row, Column::Heard),
            session: value_under(head, row, Column::Session),
        }
    }
}

// The value of a row under a column.
fn value_under<'a>(head: &[Column], row: &'a StringRecord, column: Column) -> Option<&'a str>
    requires { length (fields_of row.now) ≡ length head.now }
    ensures { IsUnder column head.now (fields_of row.now) (text_in result) }
{
    row.get(place_of(head, column)?)
}
