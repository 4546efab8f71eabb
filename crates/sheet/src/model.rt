// What a sheet holds. Each type's ghost fields keep its rules, so that no value can break them.
pub mod set;
pub mod sets;
pub mod sheet;
pub mod slave;
