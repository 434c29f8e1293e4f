// Where the names that may greet are read.
ghost use Rattle.std.specs.Prelude.{◌<◌, IfOk};
ghost use Rattle.lnsd_links.specs.Names.{number_of_names};
ghost use Rattle.lnsd_links.specs.NamesRead.{AreReadFrom};

use crate::name_list::NameList;
use lnsd_operator::NameListFault;

/// Where the list of the names that may greet is read: when a life begins, and when an operator
/// asks for it.
pub trait NameSource {
    ghost use Rattle.std.specs.Prelude.{Result};
    ghost use Rattle.lnsd_links.specs.declared.name_list.NameList.{NameList};
    ghost use Rattle.lnsd_operator.specs.declared.fault.NameListFault.{NameListFault};

    /// The results that a call of [`NameSource::read`] may return.
    ghost gives: { Self → Result NameList NameListFault → Type 0 };

    /// Reads the list.
    fn read(&self) -> Result<NameList, NameListFault>
        ensures { gives self.now result };
}

/// Reads the list for a life with this number of places. A list of as many names or more is refused
/// as `Places`: then links that haven't greeted might find no place.
pub fn read_names<S: NameSource>(source: &S, places: usize) -> Result<NameList, NameListFault>
    ensures few { IfOk result (λ list. number_of_names list < places) }
    ensures read { AreReadFrom (S.gives source.now) places result }
{
    let list = source.read()?;
    if list.count() >= places {
        return Err(NameListFault::Places);
    }
    Ok(list)
}
