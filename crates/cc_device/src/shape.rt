// The rules, in their order.
ghost use Rattle.std.specs.Prelude.{◌≡◌, ◌++◌, ◌∷◌, ◌&&◌, [], None, OnOk, IfErr, map, codes};
ghost use Rattle.toml.specs.View.{view};
ghost use Rattle.cc_project.specs.Names as names;
ghost use Rattle.cc_project.specs.Order.{at_each_new, first_failing, name_of};
ghost use Rattle.cc_project.specs.Values as spec;
ghost use Rattle.cc_project.specs.Views.{data_in, all_data};
ghost use Rattle.cc_device.specs.Keys.{member_text};
ghost use Rattle.cc_device.specs.Order.{function_rules, device_rules, devices_rules, functions_of, shape_fault};
ghost use Rattle.cc_device.specs.Outcome.{Reports};
ghost use Rattle.cc_device.specs.Rules.{is_free};

use crate::fault::{DeviceFault, Place, demand};
use crate::seen::Seen;
use crate::value::{
    at_key, has_only, is_among, is_device_array, is_function_array, is_name_value, items_in,
    text_in, text_of,
};
use cc_base::Text;
use std::alloc::Global;
use toml::Value;

fn is_device_name(value: Option<&Value>, is_new: bool) -> bool
    ensures { result ≡ (spec.is_there (spec.is_text_that names.is_name) (data_in value.entry) && is_new) }
{
    is_name_value(value) && is_new
}

fn is_free(environment: &[Text], text: &str, is_new: bool) -> bool
    ensures { result ≡ (names.is_among environment.now text.now && is_new) }
{
    is_among(environment, text) && is_new
}

// V3 and V4 on items: each is a function of the environment, and none that was named before.
fn check_items<'a>(
    alloc: Global,
    environment: &[Text],
    device: usize,
    key: &'static str,
    rule: u8,
    items: &'a [Value],
    functions: &mut Seen<'a>,
) -> Result<(), DeviceFault>
    ensures ok { OnOk result (first_failing (at_each_new (member_text device key.now) rule (is_free environment.now) 0 functions.old (map spec.text_of (all_data items.now))) ≡ None) }
    ensures err { IfErr result (Reports (first_failing (at_each_new (member_text device key.now) rule (is_free environment.now) 0 functions.old (map spec.text_of (all_data items.now))))) }
    ensures functions { OnOk result (functions.new ≡ functions.old ++ map spec.text_of (all_data items.now)) }
{
    for k in 0..items.len() {
        let item = &items[k];
        let text = text_of(item);
        let is_new = functions.add(text)?;
        let holds = is_free(environment, text, is_new);
        demand(alloc, Place::Item(device, key, k), rule, holds)?;
    }
    Ok(())
}

// V3 and V4: the functions at one key, behind functions that were named before.
fn check_functions<'a>(
    alloc: Global,
    environment: &[Text],
    device: usize,
    key: &'static str,
    rule: u8,
    value: Option<&'a Value>,
    functions: &mut Seen<'a>,
) -> Result<(), DeviceFault>
    ensures ok { OnOk result (first_failing (function_rules environment.now (member_text device key.now) rule functions.old (data_in value.entry)) ≡ None) }
    ensures err { IfErr result (Reports (first_failing (function_rules environment.now (member_text device key.now) rule functions.old (data_in value.entry)))) }
    ensures functions { OnOk result (functions.new ≡ functions.old ++ spec.texts_in (data_in value.entry)) }
{
    let is_whole = is_function_array(value);
    demand(alloc, Place::Member(device, key), rule, is_whole)?;
    let items = items_in(value);
    check_items(alloc, environment, device, key, rule, items, functions)?;
    Ok(())
}

// V2 to V5 for device `i`, behind devices with these names and functions.
fn check_device<'a>(
    alloc: Global,
    environment: &[Text],
    i: usize,
    device: &'a Value,
    names: &mut Seen<'a>,
    functions: &mut Seen<'a>,
) -> Result<(), DeviceFault>
    ensures ok { OnOk result (first_failing (device_rules environment.now i names.old functions.old (view device.now)) ≡ None) }
    ensures err { IfErr result (Reports (first_failing (device_rules environment.now i names.old functions.old (view device.now)))) }
    ensures names { OnOk result (names.new ≡ names.old ++ name_of (view device.now) ∷ []) }
    ensures functions { OnOk result (functions.new ≡ functions.old ++ functions_of (view device.now)) }
{
    let name = at_key(device, "name");
    let is_new = names.add(text_in(name))?;
    let is_named = is_device_name(name, is_new);
    demand(alloc, Place::Member(i, "name"), 2, is_named)?;
    let writes = at_key(device, "writes");
    check_functions(alloc, environment, i, "writes", 3, writes, functions)?;
    let reads = at_key(device, "reads");
    check_functions(alloc, environment, i, "reads", 4, reads, functions)?;
    let is_all = has_only(device, &["name", "writes", "reads"]);
    demand(alloc, Place::Device(i), 5, is_all)?;
    Ok(())
}

fn check_devices<'a>(
    alloc: Global,
    environment: &[Text],
    devices: &'a [Value],
) -> Result<(), DeviceFault>
    ensures ok { OnOk result (first_failing (devices_rules environment.now 0 [] [] (all_data devices.now)) ≡ None) }
    ensures err { IfErr result (Reports (first_failing (devices_rules environment.now 0 [] [] (all_data devices.now)))) }
{
    let mut names = Seen::new(alloc);
    let mut functions = Seen::new(alloc);
    for i in 0..devices.len() {
        let device = &devices[i];
        check_device(alloc, environment, i, device, &mut names, &mut functions)?;
    }
    Ok(())
}

/// `Ok` where the document breaks no rule, and else the first that it breaks.
pub fn check(alloc: Global, environment: &[Text], document: &Value) -> Result<(), DeviceFault>
    ensures ok { OnOk result (shape_fault environment.now (view document.now) ≡ None) }
    ensures err { IfErr result (Reports (shape_fault environment.now (view document.now))) }
{
    let devices = at_key(document, "device");
    demand(alloc, Place::Top("device"), 1, is_device_array(devices))?;
    check_devices(alloc, environment, items_in(devices))?;
    let is_all = has_only(document, &["device"]);
    demand(alloc, Place::Top("top"), 5, is_all)?;
    Ok(())
}
