// The many-valued replies, for C: the number and how many values were stored, the values in lent memory. Each export is its own line: none can be generic.
ghost use Rattle.std.specs.Prelude.{◌≡◌};
ghost use Rattle.list.specs.Numbered.{reply_size};
ghost use Rattle.daly.specs.Lists.{TellsVoltages, TellsMillivolts, TellsTemperatures, TellsBalance, TellsFaults};

use list::ListTold;

#[unsafe(no_mangle)]
pub extern "C" fn daly_cell_voltages_reply_size(n_cells: u8) -> usize
    ensures { result ≡ reply_size 3 n_cells }
{
    list::cell_voltages_reply_size(n_cells)
}

#[unsafe(no_mangle)]
pub extern "C" fn daly_cell_temperatures_reply_size(n_sensors: u8) -> usize
    ensures { result ≡ reply_size 7 n_sensors }
{
    list::cell_temperatures_reply_size(n_sensors)
}

#[unsafe(no_mangle)]
pub extern "C" fn daly_cell_voltages(rx_buffer: &[u8], n_cells: u8, out: &mut [f32]) -> ListTold
    ensures { TellsVoltages rx_buffer.now n_cells out.old result out.new }
{
    list::decode_cell_voltages(rx_buffer, n_cells, out).into()
}

#[unsafe(no_mangle)]
pub extern "C" fn daly_cell_millivolts(rx_buffer: &[u8], n_cells: u8, out: &mut [u16]) -> ListTold
    ensures { TellsMillivolts rx_buffer.now n_cells out.old result out.new }
{
    list::decode_cell_millivolts(rx_buffer, n_cells, out).into()
}

#[unsafe(no_mangle)]
pub extern "C" fn daly_cell_temperatures(
    rx_buffer: &[u8],
    n_sensors: u8,
    out: &mut [i32],
) -> ListTold
    ensures { TellsTemperatures rx_buffer.now n_sensors out.old result out.new }
{
    list::decode_cell_temperatures(rx_buffer, n_sensors, out).into()
}

#[unsafe(no_mangle)]
pub extern "C" fn daly_cell_balance_state(
    rx_buffer: &[u8],
    n_cells: u8,
    out: &mut [bool],
) -> ListTold
    ensures { TellsBalance rx_buffer.now n_cells out.old result out.new }
{
    flags::decode_cell_balance_state(rx_buffer, n_cells, out).into()
}

// Positions in the Rust's `ErrorCode`.
#[unsafe(no_mangle)]
pub extern "C" fn daly_error_codes(rx_buffer: &[u8], out: &mut [u8]) -> ListTold
    ensures { TellsFaults rx_buffer.now out.old result out.new }
{
    flags::decode_error_codes(rx_buffer, out).into()
}
